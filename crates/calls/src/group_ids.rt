// Group IDs: a change of them is a change of nothing else.
ghost use Rattle.std.specs.Prelude.{refl};
ghost use Rattle.capabilities.specs.Header.{CAP_SETGID};
ghost use Rattle.rules.specs.Fields.{with_gids};
ghost use Rattle.rules.specs.Ids.{filesystem_group_id_changed, group_ids_changed};

use crate::id_calls::Kind;
use capabilities::header::CAP_SETGID;
use credentials::{Credentials, Ids};

// The kind of calls 19 to 22.
pub(crate) struct GroupIds;

impl Kind for GroupIds {
    ghost of = { λ c. c.gids };

    ghost with = { with_gids };

    ghost with_filesystem = { with_gids };

    ghost changed = { group_ids_changed };

    ghost filesystem_changed = { filesystem_group_id_changed };

    ghost CAPABILITY = { CAP_SETGID };

    ghost allowed = { λ c new. refl };

    ghost not_allowed = { λ c. refl };

    ghost filesystem_allowed = { λ c new. refl };

    ghost filesystem_not_allowed = { λ c. refl };

    const CAPABILITY: u64 = CAP_SETGID;

    fn ids(held: Credentials) -> Ids {
        held.gids
    }

    fn with_ids(held: Credentials, new: Ids) -> Credentials {
        let mut next = held;
        next.gids = new;
        next
    }

    fn with_filesystem_id(held: Credentials, new: Ids) -> Credentials {
        Self::with_ids(held, new)
    }
}
