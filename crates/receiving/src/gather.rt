// Gathers the bytes of a piece behind those gathered: the header up to its sixth byte, then the body up to its last.
ghost use Rattle.std.specs.Prelude.{◌≡◌, ◌+◌, ◌-◌, ◌≤◌, cond, length, ltb, min};
ghost use Rattle.octets.specs.Put.{put};
ghost use Rattle.receiving.specs.declared.gather.Head.TheVariants.{Short, Whole};
ghost use Rattle.receiving.specs.Private.Gathering.{RoomToGather, Opens, Gathered};

// What the bytes gathered now begin with: no event yet, a length above the limit, a whole PDU.
#[derive(Clone, Copy, Debug, PartialEq, Eq)]
pub enum Head {
    Short,
    Long,
    Whole,
}

#[derive(Clone, Copy, Debug, PartialEq, Eq)]
pub struct Got {
    pub used: usize,
    pub head: Head,
}

impl Got {
    // So many bytes were used, and so many of a PDU of `need` bytes are there now.
    fn of(used: usize, there: usize, need: usize) -> Got
        ensures { result ≡ record { used = used; head = cond (ltb there need) Short Whole } }
    {
        let head = if there < need {
            Head::Short
        } else {
            Head::Whole
        };
        Got { used, head }
    }
}

// How many of n bytes are wanted behind those there, until there are `need`.
fn want(have: usize, need: usize, n: usize) -> usize
    ensures { result ≡ min (need - have) n }
{
    need.saturating_sub(have).min(n)
}

// Copies a run of bytes to a place of the buffer, a long one in two copies: the second begins at a line of 16 bytes of the buffer, so that its stores are aligned,
// which takes less time.
fn copy(buf: &mut [u8], at: usize, bytes: &[u8])
    requires { at + length bytes.now ≤ length buf.old }
    ensures { buf.new ≡ put buf.old at bytes.now }
{
    if bytes.len() < 256 {
        octets::put(buf, at, bytes);
        return;
    }
    let (lead, lines) = bytes.split_at(16 - at % 16);
    octets::put(buf, at, lead);
    octets::put(buf, at + lead.len(), lines);
}

// With nothing gathered and a whole header in the piece there is one copy.
fn gather_new(buf: &mut [u8], piece: &[u8]) -> Got
    requires { Opens buf.old piece.now }
    ensures { Gathered buf.old 0 piece.now buf.new result }
{
    let len = association::length_field(piece);
    if numbers::LONGEST < len {
        octets::put(buf, 0, &piece[..numbers::HEADER]);
        return Got {
            used: numbers::HEADER,
            head: Head::Long,
        };
    }
    let need = numbers::HEADER + len;
    let used = want(0, need, piece.len());
    octets::put(buf, 0, &piece[..used]);
    Got::of(used, used, need)
}

// Copies bytes of the piece, through the one that brings an event, else all.
pub(crate) fn gather(buf: &mut [u8], count: usize, piece: &[u8]) -> Got
    requires { RoomToGather buf.old count }
    ensures { Gathered buf.old count piece.now buf.new result }
{
    if count == 0 && numbers::HEADER <= piece.len() {
        return gather_new(buf, piece);
    }
    let lead = want(count, numbers::HEADER, piece.len());
    octets::put(buf, count, &piece[..lead]);
    if count + lead < numbers::HEADER {
        return Got {
            used: lead,
            head: Head::Short,
        };
    }
    let len = association::length_field(buf);
    if numbers::LONGEST < len {
        return Got {
            used: lead,
            head: Head::Long,
        };
    }
    let need = numbers::HEADER + len;
    let used = want(count, need, piece.len());
    copy(buf, count + lead, &piece[lead..used]);
    Got::of(used, count + used, need)
}
