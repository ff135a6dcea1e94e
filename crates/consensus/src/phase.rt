// The phases of a round. Relies on specs/Room.antt, which gives each its number. Cited by the kept check and the step.
ghost use Rattle.std.specs.Prelude.{◌≡◌};
ghost use Rattle.consensus.specs.Room.{phase_number};

// The phases of a round, by the rules' numbers. Private, since a table may hold any number as its phase: a round keeps the number.
#[derive(Clone, Copy, Debug, PartialEq, Eq, Hash)]
pub enum Phase {
    Idle = 0,
    Collecting,
    Begun,
}

// The number that the rules give a phase.
impl From<Phase> for u64 {
    ghost from_gives = { λ phase number. number ≡ phase_number phase };

    fn from(phase: Phase) -> u64 {
        phase as u64
    }
}
