//! The laws of generated schedules, which name no code.

ghost use Rattle.std.specs.Prelude.{◌≡◌, ◌≤◌, ℕ, length};
ghost use Rattle.mrp_config.specs.Config.{Config};
ghost use Rattle.mrp_config.specs.Valid.{IsValid};
ghost use Rattle.schedule.specs.Spelling.{schedule_text, IsSchedule};
ghost use Rattle.schedule.specs.Generating.{generated};

/// A generated schedule has so many events. Over a valid deployment it is one that may be, so that its text is read, and
/// as these events.
pub fn generated_schedules_may_be()
    ensures counted { (config : Config) (seed events : ℕ) → length (generated config seed events) ≡ events }
    ensures may_be { (config : Config) → IsValid config → (seed events : ℕ) → events ≤ 1048576 → IsSchedule config (schedule_text (generated config seed events)) (generated config seed events) }
{}
