// Whether a bit is marked twice: as writable, and as one that is cleared by writing 1.
ghost use Rattle.std.specs.Prelude.{◌≡◌, length};
ghost use Rattle.board.specs.Description.{doubly_marked};

// All 4,096 pairs of bytes are looked at, and none ends the loop: so the compiler takes many of them at a time. (With a zip of both, a packet took a
// seventh longer.)
pub(super) fn is_doubly_marked(rules: &[u8], marks: &[u8]) -> bool
    requires { (length rules.now ≡ 4096) × (length marks.now ≡ 4096) }
    ensures { result ≡ doubly_marked rules.now marks.now }
{
    let mut both = 0;
    for at in 0..words::SPACE {
        both |= rules[at] & marks[at];
    }
    both != 0
}
