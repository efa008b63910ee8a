//! Laws about the definitions of limits and of storage.

ghost use Rattle.std.specs.Prelude.{ℕ, ◌≡◌, ◌≤◌, ◌≢◌, ◌∷◌, [], true, false};
ghost use Rattle.std.specs.List.{AllByRecursion, Contains};
ghost use Rattle.tc_queues.specs.ChannelState.{no_limits};
ghost use Rattle.tc_channel.specs.Examples as example;
ghost use Rattle.tc_queues.specs.declared.settings.SettingsFault.TheVariants as settings_faults;
ghost use Rattle.tc_fixed.specs.declared.limits.Limits.{Limits};
ghost use Rattle.tc_fixed.specs.declared.limits.MapLimit.{MapLimit};
ghost use Rattle.tc_fixed.specs.declared.limits.LimitsFault.TheVariants as faults;
ghost use Rattle.tc_fixed.specs.Examples.{limits_on};
ghost use Rattle.tc_fixed.specs.Limits.{AreLimits, AreLimitedMapsApart, IsFaultWithLimits, largest_limit, limit_of, none};
ghost use Rattle.tc_fixed.specs.Storage.{storage_of, storage_within};

/// If no MAP is listed twice, each listed MAP has the limit that is listed for it. Each MAP that isn't listed has the
/// limit `others`. The limit of each MAP is at most the largest of `others` and the listed limits.
pub fn a_listed_map_has_its_own_limit()
    ensures listed { (limits : Limits) (m : MapLimit) → AreLimitedMapsApart limits.maps → Contains limits.maps m → limit_of limits m.map ≡ m.octets }
    ensures others { (limits : Limits) (map_id : ℕ) → AllByRecursion (λ (m : MapLimit). m.map ≢ map_id) limits.maps
        → limit_of limits map_id ≡ limits.others }
    ensures largest { (limits : Limits) (map_id : ℕ) → limit_of limits map_id ≤ largest_limit limits }
{}

/// If no MAP is listed, and `others` is the length of the largest unit, each MAP has the limit that it has in a channel
/// of tc_channel. So a channel with these limits runs as a channel of tc_channel does.
pub fn without_limits_each_unit_is_left()
    ensures { limit_of none ≡ no_limits }
{}

/// States the first fault of limits, worked out by hand. In the first clause the settings have a fault, which comes
/// first, and the limits have every fault that can occur together with the others. Each of the next clauses repairs the
/// fault of the clause before it. The last clauses have the greatest values that are allowed, and values above them.
pub fn limits_are_refused_so()
    ensures settings { IsFaultWithLimits (example.channel_of false 64 2 1 [] []) (limits_on 0 64 64 0) (faults.Settings settings_faults.BadVcid) }
    ensures others { IsFaultWithLimits (example.channel_of false 63 2 1 [] []) (limits_on 0 64 64 0) faults.BadOthers }
    ensures map { IsFaultWithLimits (example.channel_of false 63 2 1 [] []) (limits_on 1 64 64 0) faults.BadMap }
    ensures double_map { IsFaultWithLimits (example.channel_of false 63 2 1 [] []) (limits_on 1 63 63 0) faults.DoubleMap }
    ensures limit { IsFaultWithLimits (example.channel_of false 63 2 1 [] []) (limits_on 1 63 0 0) faults.BadLimit }
    ensures plain_map { IsFaultWithLimits (example.channel_of false 63 2 1 [] []) (limits_on 1 63 0 65542) faults.PlainMap }
    ensures unlisted { IsFaultWithLimits (example.channel_of true 63 2 1 [] (example.two_maps 62 3 1)) (limits_on 0 63 3 1) faults.UnlistedMap }
    ensures listed { AreLimits (example.channel_of true 63 2 1 [] (example.two_maps 3 63 1)) (limits_on 0 63 3 65542) }
    ensures large_others { IsFaultWithLimits (example.channel_of true 63 2 1 [] []) (limits_on 65543 63 3 1) faults.BadOthers }
    ensures large_limit { IsFaultWithLimits (example.channel_of true 63 2 1 [] []) (limits_on 65542 63 3 65543) faults.BadLimit }
{}

/// States the storage of three channels, worked out by hand. The first is a plain channel for one data field and one
/// packet. The second has segment headers, and also holds a unit of MAP 3. The third is the second with a limit of 100
/// octets for MAP 3 and of 0 for the other MAPs.
pub fn storage_is_counted_so()
    ensures plain { storage_of example.plain ≡ 2166 }
    ensures headed { storage_of example.map_3_chosen ≡ 8526823 }
    ensures limited { storage_within example.map_3_chosen (record { others = 0; maps = record { map = 3; octets = 100 } ∷ [] }) ≡ 6763 }
{}
