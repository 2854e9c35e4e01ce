// An object of its own kind, and a turn through the bounds alone.
ghost use Rattle.std.specs.Prelude.{◌≡◌, ℕ, IfOk};
ghost use Rattle.zot_history.specs.History.{Replays, signed};

use std::alloc::Global;
use std::sync::Wait;
use zot_turn::{Job, NoMemory, Object, Shared};

#[derive(Drop)]
pub enum Light {
    Red,
    Green,
}

/// Red to green, or green to red.
#[derive(Clone, Copy)]
pub enum Change {
    Go,
    Stop,
}

impl Object for Light {
    type Entry = Change;

    ghost use Rattle.std.specs.Prelude.{◌≡◌, ◌⊎◌};
    ghost use Rattle.tests_turn.specs.declared.light.Light.TheVariants.{Red, Green};
    ghost use Rattle.tests_turn.specs.declared.light.Change.TheVariants.{Go, Stop};

    ghost step = { λ old seat entry new. ((old ≡ Red) × (entry ≡ Go) × (new ≡ Green)) ⊎ ((old ≡ Green) × (entry ≡ Stop) × (new ≡ Red)) };
}

/// Turns the light to the other colour, and keeps the change.
#[derive(Drop)]
pub struct Switch {
    pub made: Change,
}

impl Job<Light> for Switch {
    ghost use Rattle.std.specs.Prelude.{[], ◌∷◌};

    ghost needs = { λ job seat light. Unit {0} };

    ghost does = { λ job seat before after done. Unit {0} };

    ghost entries = { λ job. job.made ∷ [] };

    fn run(&mut self, _seat: u64, light: &mut Light) {
        match light {
            Light::Red => {
                *light = Light::Green;
                self.made = Change::Go;
            }
            Light::Green => {
                *light = Light::Red;
                self.made = Change::Stop;
            }
        }
    }
}

/// Shares a value, runs a job on it in one turn, and takes the value back. The history is that turn.
pub fn run_alone<O: Object + Drop, J: Job<O>, R: Wait>(
    rt: &R,
    alloc: Global,
    value: O,
    job: &mut J,
) -> Result<O, NoMemory>
    requires { (v : O) → J.needs job.old 0 v }
    ensures { IfOk result (λ last. Replays O.step value (signed 0 (J.entries job.new)) last) }
{
    let (shared, mut seat) = Shared::new(alloc, value)?;
    shared.turn(rt, &mut seat, job);
    Ok(shared.close(seat))
}

/// Switches a red light.
pub fn switched<R: Wait>(rt: &R, alloc: Global) -> Result<Light, NoMemory>
    ensures { IfOk result (λ light. light ≡ Light.Green) }
{
    let mut switch = Switch { made: Change::Stop };
    run_alone(rt, alloc, Light::Red, &mut switch)
}
