ghost use Rattle.std.specs.Prelude.{◌≡◌};
ghost use Rattle.eltoo.specs.Safety.{Starts};
ghost use Rattle.eltoo.specs.Stations.{set_up};
ghost use Rattle.station.specs.Meaning.{meant};

use crate::station::Station;
use ledger::host::Host;
use seal::scheme::Scheme;
use tower::tower::Tower;

impl<B: Host, S: Scheme> Station<B, S> {
    // A station with nothing agreed or marked, over any host and any scheme.
    pub fn set_up(host: B, scheme: S) -> Station<B, S>
        ensures owned { (result.host ≡ host) × (result.scheme ≡ scheme) }
        ensures means { meant B.Ledger.model S.Scheme.seals result ≡ set_up (B.Ledger.model host) (S.Scheme.seals scheme) }
        ensures starts { Starts S.Scheme.gives (meant B.Ledger.model S.Scheme.seals result) }
    {
        let tower = Tower::new();
        Station {
            host,
            scheme,
            tower,
        }
    }
}
