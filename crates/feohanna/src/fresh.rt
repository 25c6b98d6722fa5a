// A fresh association.
ghost use Rattle.std.specs.Prelude.{◌≡◌};
ghost use Rattle.association.specs.Record.{idle};
ghost use Rattle.assoc_bytes.specs.Bytes.{bytes_of};

// Makes a fresh association.
#[unsafe(no_mangle)]
pub extern "C" fn feo_raw_fresh(assoc: &mut [u8; 16])
    ensures { assoc.new ≡ bytes_of idle }
{
    *assoc = assoc_bytes::bytes_of(association::fresh());
}
