// One record of the role sheet: made, and looked at.
ghost use Rattle.std.specs.Prelude.{◌≡◌};
ghost use Rattle.octets.specs.Slice.{PartOf};
ghost use Rattle.roles.specs.Record.{record_of, uid_at, uid_start};

use numbers::ROLE;

// A record of this role; of a UID longer than its field the first 64 bytes.
pub fn role_of(uid: &[u8], scu: u8, scp: u8) -> [u8; ROLE]
    ensures { result ≡ record_of uid.now scu scp }
{
    let n = sheets::cut(uid);
    let mut s = [0u8; ROLE];
    s[0] = n.len() as u8;
    s[1] = scu;
    s[2] = scp;
    octets::put(&mut s, 4, n);
    s
}

// The UID of the record at a place, its own part of the sheet; the empty part at 0 where no whole record starts there.
// Not one function with the names of a context's record: it would take any size and any two places, and a case for each that does not fit.
pub fn uid_at(s: &[u8], at: usize) -> &[u8]
    ensures { PartOf s.entry (uid_start s.now at) (uid_at s.now at) result }
{
    if s.len() < ROLE || s.len() - ROLE < at {
        return &s[..0];
    }
    let from = at + 4;
    &s[from..from + sheets::cap_of(s[at])]
}
