// What the desk understands, for whoever types `help`.
use crate::saying::put;

pub fn help() {
    put(
        "A line is a statement. Numbers are hexadecimal; what follows a # is a comment. The end of the input (Ctrl-D) ends.
The board:
  fresh              bytes 51 in the ordinary space, 72 in the trusted one, every rule 00
  open               the same with every rule FF
  blank              every byte and every rule 00
                     (each with every mark 00, function 0, A 104, B 00C, edition 1, nothing captured; a session begins with the last)
  take FUNCTION      primary or alternate: what is said, shown and asked of a function is of that one from now on. A new board has one function,
                     the primary; the first take alternate gives it the other, which is as new, with function 1
  function F   A N   B N
  edition N          of byte 0: 1 ignores its bit 7, 2 gives 4 when that is set; with any other the board answers 1
  captured BUS DEVICE   forgotten
  ordinary N b b ..  bytes at offset N; also: trusted
  ordinary-rules N b b ..
                     a bit that is 1 here may be written; also: trusted-rules
  ordinary-marks N b b ..
                     a bit that is 1 here is cleared by writing 1; also: trusted-marks. No bit may be 1 in both
  chain LIST C F S P C headers, the first at F, each the next S further, the last pointing to P
The switch:
  ports S U T ..     its ports in order, three numbers each: secondary, subordinate, and 0 where it does not support TCS routing
                     (without numbers it has none, as when a session begins; a new board leaves them as they are)
  records C          a list of records for C ports, up to 21, each with seven zeros; addresses are judged by it. A session begins with
                     records 0, and a new board leaves them as they are
  record P M N E I B R A
                     the record of port P: Max Group, Num Group, Enable, index, base, Receive, Block All; also such as no capability gives
A new board:
  structures I V L ..
                     its structures in order, three numbers each: ID, version, length; also such as may not be laid out. A session begins
                     without any, and another board leaves them as they are
  more C I V L       C structures behind them, all alike; 3C1 in all
  proposal N N ..    an offset for each of them
  move K N           N for offset K of the proposal, counted from 0
Lent to the next question only:
  sizes O R M T S N  so many bytes of the ordinary space, its rules, its marks, the trusted space, its rules, its marks
  room N             so many bytes of the reply's buffer, of the one for what leaves or for what ask writes, or entries of the list room
To look, without asking:
  show SPACE N C     C bytes from offset N on; also of rules and marks
Questions:
  packet b b ..      the board is sent a packet
  route b b ..       the switch is sent one
  ask K R R T B D F N E
                     the board is sent a request that is written from its parts: kind, requester in two bytes, tag, bus, device, function,
                     offset, enables; and of a write four data bytes, which a read does without. The reply is read back
  completion b b ..  a completion is read back
  reset              the board is reset
  walk LIST          compatible, extended or trusted
  dvsec SPACE N      the record at offset N; SPACE is ordinary or trusted; also: dual, multicast
  keep SPACE N P     as multicast, and what is found becomes the record of port P
  judge P A          what becomes of a packet for address A that enters by port P
  plan               offsets are proposed for the structures; where there are any, they become the proposal
  accept             the checker decides on the proposal
  write SPACE        the headers of the proposal are written into a space, and its extended list is shown as the listing shows it
  merge b b ..       four old bytes, four rules, four marks, four data bytes, the enables
A question with an expectation is a check, and everything that is not said is expected to stay.
Of two functions, what a check says of the capture and of bytes is of the one that the packet names in byte 9, or else of the primary.
A refusal has no reply, no port, no offsets and no fields; that of a broken list, 11 or 12, has the place of the fault, 0 for the start.
A request that cannot be written has no bytes and is not sent.
Only the answer numbers, 0 to 14 and 18, are decimal:
  packet .. -> number N, reply b b .., captured BUS DEVICE, ordinary N b b .., trusted N b b ..
  route .. -> number N, port P, leaves b b ..      UR is number 0 without a port
  ask .. -> number N, writes b b .., and behind it as for packet
  completion .. -> number N, completer b b, requester b b, tag b, shown b b b b      or, for shown: done, unsupported
  reset -> forgotten      of two functions both
  walk LIST -> number N, offsets N N ..      or: steps C F S, C offsets from F on by S
  walk LIST -> number N, place P
  dvsec SPACE N -> number N, header VENDOR REVISION ID LENGTH, body N C
  dual SPACE N -> number N, alternate FUNCTION DEVICE
  multicast SPACE N -> number N, fields M N E I B R A      the same of keep
  judge P A -> number N, group G, leaves-by P P ..      without numbers for no port; or: group G, dropped; or no-hit alone
  plan -> number N, offsets N N ..      or: steps C F S
  accept -> number N
  write SPACE -> number N, headers N I V N I V ..      or: alike C F S I V, C headers from F on by S, with ID I and version V
  merge .. -> bytes b b b b
Sheets: sheet begins one and end ends it; echo writes out each line as it is read. help writes this.
",
    );
}
