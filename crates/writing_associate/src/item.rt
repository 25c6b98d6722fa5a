// An item put where it has room. Each call that puts takes the output and a place and answers the place behind: `Put` says all of it in one clause. A struct of both would hold the output's borrow, and each clause would take it apart again.
ghost use Rattle.std.specs.Prelude.{◌+◌, ◌≤◌, ◌<◌, length};
ghost use Rattle.octets.specs.Private.Put.{Put};
ghost use Rattle.items.specs.Wire.{item_bytes};

pub(crate) fn put_item(out: &mut [u8], at: usize, kind: u8, body: &[u8]) -> usize
    requires { (at + 4 + length body.now ≤ length out.old) × (length body.now < 65536) }
    ensures { Put out.old at (item_bytes kind body.now) result out.new }
{
    let l = octets::two_of(body.len() as u16);
    let next = octets::put(out, at, &[kind, 0, l[0], l[1]]);
    octets::put(out, next, body)
}
