//! The types of accesses.

ghost use Rattle.std.specs.Prelude.{◌≡◌, ◌≤◌};
ghost use Rattle.sv8_mmu.specs.AccessTypes.{number_of, is_store};

/// What an access is and in which space, as the fault status register tells it. Appendix H, the access types.
#[derive(Clone, Copy, PartialEq, Eq)]
pub enum AccessType {
    /// A load from user data.
    UserLoad,
    /// A load from supervisor data.
    SupervisorLoad,
    /// A fetch of a user instruction, or a load from there.
    UserFetch,
    /// A fetch of a supervisor instruction, or a load from there.
    SupervisorFetch,
    /// A store to user data.
    UserStore,
    /// A store to supervisor data.
    SupervisorStore,
    /// A store to user instructions.
    UserInstructionStore,
    /// A store to supervisor instructions.
    SupervisorInstructionStore,
}

impl AccessType {
    /// The number of the access type, from 0 to 7.
    pub fn number(self) -> u8
        ensures value { result ≡ number_of self }
        ensures small { result ≤ 7 }
    {
        match self {
            AccessType::UserLoad => 0,
            AccessType::SupervisorLoad => 1,
            AccessType::UserFetch => 2,
            AccessType::SupervisorFetch => 3,
            AccessType::UserStore => 4,
            AccessType::SupervisorStore => 5,
            AccessType::UserInstructionStore => 6,
            AccessType::SupervisorInstructionStore => 7,
        }
    }

    /// Whether the access stores.
    #[inline(always)]
    pub(crate) fn is_store(self) -> bool
        ensures { result ≡ is_store self }
    {
        match self {
            AccessType::UserLoad
            | AccessType::SupervisorLoad
            | AccessType::UserFetch
            | AccessType::SupervisorFetch => false,
            AccessType::UserStore
            | AccessType::SupervisorStore
            | AccessType::UserInstructionStore
            | AccessType::SupervisorInstructionStore => true,
        }
    }
}
