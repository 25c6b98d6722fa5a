// The check of a sought title against our own: which of them it is.
ghost use Rattle.titles.specs.Own.{Checked};

#[unsafe(no_mangle)]
pub extern "C" fn feo_raw_title_place(
    own: &[u8],
    sought: &[u8],
    known: &mut u8,
    place: &mut u8,
) -> u8
    ensures { Checked own.now sought.now result known.new place.new }
{
    match titles::title_place(own, sought) {
        Ok(Some(k)) => {
            *known = 1;
            *place = k as u8;
            numbers::NOT_REFUSED
        }
        Ok(None) => {
            *known = 0;
            *place = 0;
            numbers::NOT_REFUSED
        }
        Err(refusal) => {
            *known = 0;
            *place = 0;
            refusal.number()
        }
    }
}
