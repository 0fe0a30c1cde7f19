// How long the clock may run.
ghost use Rattle.std.specs.Prelude.{◌≡◌};
ghost use Rattle.domains.specs.Stands.{spent};

// The last time at which a constraint may go in or out (`last_time` of the definitions): at most 2,048 values go out then.
const LAST_TIME: u32 = 4_294_965_247;

// Are too few times left for a change?
pub fn is_spent(clock: u32) -> bool
    ensures { result ≡ spent clock }
{
    clock > LAST_TIME
}
