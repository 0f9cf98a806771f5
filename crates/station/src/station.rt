use ledger::host::Host;
use seal::scheme::Scheme;
use tower::tower::Tower;

// A host, a scheme and a tower. Once it is set up, only the six calls change it.
#[derive(Drop)]
pub struct Station<B: Host, S: Scheme> {
    pub(crate) host: B,
    pub(crate) scheme: S,
    pub(crate) tower: Tower,
}
