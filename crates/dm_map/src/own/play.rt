//! Laws of how units change the values of disks, for values of any type.

ghost use Rattle.dm_map.specs.Prelude.{ℕ, List, false, AllByRecursion, Values, answers, played, BlockUnit};
ghost use Rattle.std.specs.Prelude.{◌≡◌, ◌++◌};

/// States that leading copies and fills can be applied to the values first and the other units after them, and
/// that the result depends only on the value of each sector. The function does nothing; its contract is the law.
#[tactic(auto, using(crate::proofs::own::Plays::played_on, crate::specs::laws::Contents::played_cong))]
pub fn play_goes_on<V>()
    ensures after { (zeros : V) (written : ℕ → V) (sector : ℕ) (front rest : List BlockUnit)
        (values : Values V)
        → AllByRecursion (λ unit. answers unit ≡ false) front
        → played zeros written sector (front ++ rest) values
        ≡ played zeros written sector rest (played zeros written sector front values) }
    ensures same { (zeros : V) (written : ℕ → V) (sector : ℕ) (units : List BlockUnit)
        (values others : Values V)
        → ((disk at : ℕ) → values disk at ≡ others disk at)
        → (disk at : ℕ) → played zeros written sector units values disk at
        ≡ played zeros written sector units others disk at }
{}
