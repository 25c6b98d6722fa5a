// What an action sends.
#[derive(Clone, Copy, Debug, PartialEq, Eq)]
pub enum Sends {
    Nothing,
    // The PDU of the contents that came with the local event.
    Contents,
    // A PDU of its own.
    RejectVersion,
    ReleaseRq,
    ReleaseRp,
    AbortUser,
    AbortProvider,
}
