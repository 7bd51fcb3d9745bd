// The table at the start, and the lowest free slot of a table.
ghost use Rattle.std.specs.Prelude.{◌≡◌, cond, length, ltb, Some, None};
ghost use Rattle.threads.specs.Table.{lowest_free, fresh};

use crate::SLOTS;
use credentials::{Credentials, Ids, Sets};
use threads::Threads;

// The empty record.
const EMPTY: Credentials = Credentials {
    uids: Ids {
        real: 0,
        effective: 0,
        saved: 0,
        filesystem: 0,
    },
    gids: Ids {
        real: 0,
        effective: 0,
        saved: 0,
        filesystem: 0,
    },
    sets: Sets {
        permitted: 0,
        inheritable: 0,
        effective: 0,
        bounding: 0,
        ambient: 0,
    },
    securebits: 0,
    nnp: false,
};

// The table in which slot 0 alone is in use, with the credentials of a sheet.
pub fn fresh(sheet: Credentials) -> Threads
    ensures { result ≡ fresh sheet }
{
    let mut table = Threads {
        credentials: [EMPTY; SLOTS],
        used: [false; SLOTS],
    };
    table.credentials[0] = sheet;
    table.used[0] = true;
    table
}

// The lowest free slot by the use marks, if one is free. Behind a reference the checker does not know an array's length, so three contracts say it
// (docs/DECISIONS.md, 117).
pub(crate) fn lowest_free(used: &[bool; SLOTS]) -> Option<usize>
    requires { length used.now ≡ 96 }
    ensures { result ≡ cond (ltb (lowest_free used.now) 96) (Some (lowest_free used.now)) None }
{
    used.iter().position(|mark| !*mark)
}
