// The answers to a proposal, chosen by a site's sheet.
ghost use Rattle.choosing.specs.Call.{Chose};
ghost use Rattle.feohanna.specs.Fields.{chosen_fields};

#[unsafe(no_mangle)]
pub extern "C" fn feo_raw_choose(
    proposal: &[u8],
    site: &[u8],
    answer: &mut [u8],
    records: &mut usize,
) -> u8
    ensures { Chose proposal.now site.now answer.old (chosen_fields result records.new) answer.new }
{
    match choosing::choose(proposal, site, answer) {
        Ok(n) => {
            *records = n;
            numbers::NOT_REFUSED
        }
        Err(refusal) => {
            *records = 0;
            refusal.number()
        }
    }
}
