// The rules of the twenty-two calls: the types of a call and of its answer here, the definitions in specs/.
//
// The one code here gives the paper's numbers of refusals and causes: the crate `calls` has the code that meets the rules. The crate assumes nothing.
#![tactic(auto)]

mod numbers;

use credentials::Credentials;

// What a call answers: that it is done, or why it is refused.
pub type Answer = Result<Done, Refusal>;

// A call that is done: its value, and the credentials after it.
#[derive(Clone, Copy)]
pub struct Done {
    pub value: u64,
    pub after: Credentials,
}

// Why a call is refused: by the rules, with a cause (1), because number, operands and attribute make no call (22), because the attribute cannot be read
// (60), or because the credentials given are not valid (72). A refusal leaves them as they were.
#[derive(Clone, Copy, Debug, PartialEq, Eq)]
pub enum Refusal {
    NotPermitted(Cause),
    InvalidArgument,
    UnreadableAttribute,
    InvalidCredentials,
}

// Why the rules refuse a call, by the numbers 1 to 11 that specs/Answers.antt gives.
#[derive(Clone, Copy, Debug, PartialEq, Eq)]
pub enum Cause {
    // A capability that the call needs is not effective.
    CapabilityNotEffective = 1,
    // capset, without SETPCAP: the new inheritable set goes beyond the inheritable and the permitted one together.
    InheritableBeyondPermitted = 2,
    // capset: the new inheritable set goes beyond the inheritable and the bounding one together.
    InheritableBeyondBounding = 3,
    // capset: the new permitted set goes beyond the permitted one.
    PermittedGrows = 4,
    // capset: the new effective set goes beyond the new permitted one.
    EffectiveBeyondPermitted = 5,
    // Ambient raise: the capability is not in both the permitted and the inheritable set.
    NotInPermittedAndInheritable = 6,
    // Ambient raise: NO_CAP_AMBIENT_RAISE is set.
    AmbientRaiseForbidden = 7,
    // A lock that is set is missing from the new securebits.
    LockUndone = 8,
    // A flag of the securebits that is locked would be changed; by call 11 also where it would stay as it is.
    LockedFlagChanged = 9,
    // An ID is not among those that the thread may take.
    IdNotAllowed = 10,
    // A launch does not give the whole of the file's permitted set, and the file's effective bit is on.
    LaunchFallsShort = 11,
}

// A call by its name, with the operands that it uses, in the order of the numbers 1 to 22.
#[derive(Clone, Copy)]
pub enum Call {
    Execve {
        owner: u64,
        flags: u64,
        group: u64,
    },
    Capset {
        permitted: u64,
        inheritable: u64,
        effective: u64,
    },
    BoundingDrop {
        capability: u64,
    },
    BoundingRead {
        capability: u64,
    },
    AmbientRaise {
        capability: u64,
    },
    AmbientLower {
        capability: u64,
    },
    AmbientIsSet {
        capability: u64,
    },
    AmbientClearAll,
    SetSecurebits {
        bits: u64,
    },
    GetSecurebits,
    SetKeepCaps {
        on: bool,
    },
    GetKeepCaps,
    SetNoNewPrivs,
    GetNoNewPrivs,
    Setuid {
        id: u64,
    },
    Setreuid {
        real: u64,
        effective: u64,
    },
    Setresuid {
        real: u64,
        effective: u64,
        saved: u64,
    },
    Setfsuid {
        id: u64,
    },
    Setgid {
        id: u64,
    },
    Setregid {
        real: u64,
        effective: u64,
    },
    Setresgid {
        real: u64,
        effective: u64,
        saved: u64,
    },
    Setfsgid {
        id: u64,
    },
}
