// The answer to one context, whose records are the run.
ghost use Rattle.std.specs.Prelude.{◌≡◌, ◌<◌, map, length};
ghost use Rattle.laws.specs.Lists.{any, same_bytes};
ghost use Rattle.sheets.specs.Record.{transfer_at};
ghost use Rattle.sheets.specs.Private.OneRecord.{run_context};
ghost use Rattle.choosing.specs.Choice.{liked_of, chosen};
ghost use Rattle.choosing.specs.Private.Runs.{answer_bytes};

use numbers::RECORD;

// Whether the transfer name was proposed for the context.
fn was_proposed(run: &[[u8; RECORD]], x: &[u8]) -> bool
    ensures { result ≡ any (same_bytes x.now) (map (λ r. transfer_at r 0) run.now) }
{
    run.iter()
        .any(|r| octets::same_bytes(x, sheets::transfer_at(r, 0)))
}

// Goes over the site's records, once, to the first that matches; where none does the answer has no name.
pub(crate) fn answer_to(run: &[[u8; RECORD]], site: &[[u8; RECORD]]) -> [u8; RECORD]
    requires { 0 < length run.now }
    ensures { result ≡ answer_bytes (chosen (map liked_of site.now) (run_context run.now)) }
{
    let mut result = numbers::ABSTRACT_NOT_SUPPORTED;
    for liked in site {
        if octets::same_bytes(
            sheets::abstract_at(liked, 0),
            sheets::abstract_at(&run[0], 0),
        ) {
            if was_proposed(run, sheets::transfer_at(liked, 0)) {
                return sheets::record_of(
                    run[0][0],
                    numbers::ACCEPTED,
                    &[],
                    sheets::transfer_at(liked, 0),
                );
            }
            result = numbers::TRANSFER_NOT_SUPPORTED;
        }
    }
    sheets::record_of(run[0][0], result, &[], &[])
}
