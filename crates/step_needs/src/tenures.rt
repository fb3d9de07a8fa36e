ghost use Rattle.step_needs.specs.Tenures.{BootsFind, LeasesFind, ReleasesFind, SweptsFind, ZonesFind};

/// A start, a lease, its end, a sweep and a zone that may follow find the moment of the parts no later than their own,
/// which is none past the last there is. A lease is of a shard and lasts for a minute; a release and a sweep are of a shard.
///
/// A theorem and no work: the call does nothing.
pub fn tenures_find_their_parts()
    ensures boot { BootsFind }
    ensures lease { LeasesFind }
    ensures release { ReleasesFind }
    ensures swept { SweptsFind }
    ensures zone { ZonesFind }
{}
