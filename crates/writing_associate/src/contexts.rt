// The items of a sheet's contexts: measured, and written.
// The loops that measure and those that put, here and in role_items.rt, are three lines each: one that took the item as a closure, with its contract, would be longer than they are.
ghost use Rattle.std.specs.Prelude.{◌≡◌, ◌+◌, ◌≤◌, ◌<◌, length};
ghost use Rattle.numbers.specs.Lengths.{LONGEST};
ghost use Rattle.octets.specs.Private.Put.{Put};
ghost use Rattle.sheets.specs.Sheet.{abstract_of, transfer_of};
ghost use Rattle.writing_associate.specs.Private.ContextItems.{answers, names_size as names_of, name_items, run_item, run_items, answer_item, answer_items, context_bytes, context_head, capped};

use crate::item::put_item;
use numbers::RECORD;

// Whose PDU it is: an RQ proposes contexts, an AC answers them.
#[derive(Clone, Copy)]
pub(crate) enum Side {
    Request,
    Accept,
}

#[tactic(auto, using(sheets::proofs::RecordLaws::transfer_first, crate::proofs::ContextLaws::transfer_64))]
fn transfer_of(r: &[u8; RECORD]) -> &[u8]
    ensures { (result.now ≡ transfer_of r.now) × (length result.now ≤ 64) }
{
    sheets::transfer_at(r, 0)
}

#[tactic(auto, using(sheets::proofs::RecordLaws::abstract_first, crate::proofs::ContextLaws::abstract_64))]
fn abstract_of(r: &[u8; RECORD]) -> &[u8]
    ensures { (result.now ≡ abstract_of r.now) × (length result.now ≤ 64) }
{
    sheets::abstract_at(r, 0)
}

// The bytes of the transfer names, each behind a head of so many bytes, and of `base`. Any number above the limit gives 16,385, so no sum wraps.
fn names_size(rs: &[[u8; RECORD]], head: usize, base: usize) -> usize
    requires { (head ≤ 12) × (base ≤ LONGEST) }
    ensures { result ≡ capped (base + names_of head rs.now) }
{
    let mut n = base;
    for r in rs {
        n += head + transfer_of(r).len();
        if numbers::LONGEST < n {
            return numbers::LONGEST + 1;
        }
    }
    n
}

// The bytes of a proposal's items and of `base`, so capped.
fn runs_size(rs: &[[u8; RECORD]], base: usize) -> usize
    requires { base ≤ LONGEST }
    ensures { result ≡ capped (base + length (run_items rs.now)) }
{
    let mut n = base;
    // A closure, not the function's name: the kit has no contract of another crate's function that is given by name.
    for run in rs.chunk_by(|r, next| sheets::same_run(r, next)) {
        n = names_size(run, 4, n) + 12 + abstract_of(&run[0]).len();
        if numbers::LONGEST < n {
            return numbers::LONGEST + 1;
        }
    }
    n
}

// The PDU-length with the contexts of the records, where `base` is the rest of it, so capped.
pub(crate) fn measure(side: Side, rs: &[[u8; RECORD]], base: usize) -> usize
    requires { base ≤ LONGEST }
    ensures { result ≡ capped (base + length (context_bytes (answers side) rs.now)) }
{
    match side {
        Side::Request => runs_size(rs, base),
        Side::Accept => names_size(rs, 12, base),
    }
}

// A 20H or 21H up to its result, where n bytes follow the length.
fn put_head(out: &mut [u8], at: usize, kind: u8, n: usize, id: u8, res: u8) -> usize
    requires { (at + 8 ≤ length out.old) × (n < 65536) }
    ensures { Put out.old at (context_head kind n id res) result out.new }
{
    let l = octets::two_of(n as u16);
    octets::put(out, at, &[kind, 0, l[0], l[1], id, 0, res, 0])
}

// The 40H items of the records.
fn put_names(out: &mut [u8], from: usize, rs: &[[u8; RECORD]]) -> usize
    requires { from + length (name_items rs.now) ≤ length out.old }
    ensures { Put out.old from (name_items rs.now) result out.new }
{
    let mut n = from;
    for r in rs {
        n = put_item(out, n, 0x40, transfer_of(r));
    }
    n
}

// The 20H of a run of records.
fn put_run(out: &mut [u8], at: usize, run: &[[u8; RECORD]]) -> usize
    requires { (0 < length run.now) × (at + length (run_item run.now) ≤ length out.old) × (length (run_item run.now) ≤ LONGEST) }
    ensures { Put out.old at (run_item run.now) result out.new }
{
    let name = abstract_of(&run[0]);
    let n = 8 + name.len() + names_size(run, 4, 0);
    let a = put_head(out, at, 0x20, n, run[0][0], 0);
    let b = put_item(out, a, 0x30, name);
    put_names(out, b, run)
}

fn put_runs(out: &mut [u8], from: usize, rs: &[[u8; RECORD]]) -> usize
    requires { (from + length (run_items rs.now) ≤ length out.old) × (length (run_items rs.now) ≤ LONGEST) }
    ensures { Put out.old from (run_items rs.now) result out.new }
{
    let mut n = from;
    for run in rs.chunk_by(|r, next| sheets::same_run(r, next)) {
        n = put_run(out, n, run);
    }
    n
}

// The 21H of a record.
fn put_answer(out: &mut [u8], at: usize, r: &[u8; RECORD]) -> usize
    requires { at + length (answer_item r.now) ≤ length out.old }
    ensures { Put out.old at (answer_item r.now) result out.new }
{
    let name = transfer_of(r);
    let a = put_head(out, at, 0x21, 8 + name.len(), r[0], r[1]);
    put_item(out, a, 0x40, name)
}

fn put_answers(out: &mut [u8], from: usize, rs: &[[u8; RECORD]]) -> usize
    requires { from + length (answer_items rs.now) ≤ length out.old }
    ensures { Put out.old from (answer_items rs.now) result out.new }
{
    let mut n = from;
    for r in rs {
        n = put_answer(out, n, r);
    }
    n
}

// The items of the records' contexts.
pub(crate) fn put_contexts(out: &mut [u8], from: usize, side: Side, rs: &[[u8; RECORD]]) -> usize
    requires { (from + length (context_bytes (answers side) rs.now) ≤ length out.old) × (length (context_bytes (answers side) rs.now) ≤ LONGEST) }
    ensures { Put out.old from (context_bytes (answers side) rs.now) result out.new }
{
    match side {
        Side::Request => put_runs(out, from, rs),
        Side::Accept => put_answers(out, from, rs),
    }
}
