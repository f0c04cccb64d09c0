// A request without a fault: whether it may leave, by which port, and what is then written.
ghost use Rattle.std.specs.Prelude.{◌≡◌, ◌≤◌, length};
ghost use Rattle.router.specs.Routing.{is_type0, barred_at, turns};
ghost use Rattle.router.specs.Promise.{over, told, shows};
ghost use Rattle.router.specs.Inner.{Ready, left, Faultless, passes_by, passes};

use super::Verdict;
use answers::Refusal;
use packet::{Request, Target};
use ports::{Exit, Port};

fn is_type_0(request: Request) -> bool
    ensures { result ≡ is_type0 request.target }
{
    request.target == Target::Type0
}

// A trusted request, at a port that does not support TCS routing.
fn is_barred(request: Request, port: Port) -> bool
    ensures { result ≡ barred_at port request.target }
{
    request.target.is_trusted() && port.tcs == 0
}

// A Type 1 request leaves as Type 0 where its bus is the port's secondary. (The bytes of a trusted one never alter.)
fn turns(request: Request, port: Port) -> bool
    ensures { result ≡ turns request.target request.bus port }
{
    request.target == Target::Type1 && request.bus == port.secondary
}

// The packet over the front of the buffer. (Byte by byte: of the library's copy the compiler makes a call of memmove here, which a host would have to have.)
fn lay(packet: &[u8], leaving: &mut [u8])
    requires { length packet.now ≤ length leaving.old }
    ensures { leaving.new ≡ over packet.now leaving.old }
{
    for (place, byte) in packet.iter().enumerate() {
        leaving[place] = *byte;
    }
}

// Writes what leaves: the packet, with the type code of Type 0 where it turns into that. The code's lowest bit tells the types apart.
fn leave(turned: bool, packet: &[u8], leaving: &mut [u8])
    requires { Ready packet.now turned leaving.old }
    ensures { leaving.new ≡ left turned packet.now leaving.old }
{
    lay(packet, leaving);
    if turned {
        leaving[0] = packet[0] & 0xfe;
    }
}

// Routes a request that is not of Type 0 by the port that has its bus: refused if it is barred there, else it leaves.
fn pass_by(
    exit: Exit,
    request: Request,
    packet: &[u8],
    leaving: &mut [u8],
) -> Result<Verdict, Refusal>
    requires { Faultless packet.now request leaving.old }
    ensures { told result leaving.new ≡ shows (passes_by exit packet.now) leaving.old }
{
    if is_barred(request, exit.port) {
        return Err(Refusal::UnknownType);
    }
    leave(turns(request, exit.port), packet, leaving);
    Ok(Verdict::Leaves {
        port: exit.place,
        length: packet.len(),
    })
}

// Routes a request without a fault: Type 0 is for no port, and what has no port is unsupported.
pub(super) fn pass(
    exit: Option<Exit>,
    request: Request,
    packet: &[u8],
    leaving: &mut [u8],
) -> Result<Verdict, Refusal>
    requires { Faultless packet.now request leaving.old }
    ensures { told result leaving.new ≡ shows (passes (Ok exit) packet.now) leaving.old }
{
    if is_type_0(request) {
        return Err(Refusal::UnknownType);
    }
    match exit {
        Some(exit) => pass_by(exit, request, packet, leaving),
        None => Ok(Verdict::Unsupported),
    }
}
