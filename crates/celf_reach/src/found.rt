//! What a walk over the other side finds.
ghost use Rattle.std.specs.Prelude.{◌≡◌};
ghost use Rattle.std.specs.Option.{option_map};
ghost use Rattle.reach_walk.specs.Walked as spec;
ghost use Rattle.celf_reach.specs.Scanned.{plain_found, plain_prune};

/// A metavariable, and the places that it keeps.
#[derive(Drop)]
pub struct Prune {
    pub meta: u32,
    pub mask: Vec<bool>,
}

/// What is found: a clash; that the metavariable is not mentioned and foreign locals can be taken away; and a
/// metavariable from which some can be taken.
#[derive(Drop)]
pub struct Found {
    pub clash: bool,
    pub free: bool,
    pub prune: Option<Prune>,
}

/// What is found where there is nothing to find.
pub fn nothing() -> Found
    ensures { plain_found result ≡ spec.nothing }
{
    Found {
        clash: false,
        free: true,
        prune: None,
    }
}

/// The first one, if there is one.
fn first_of(first: Option<Prune>, second: Option<Prune>) -> Option<Prune>
    ensures { option_map plain_prune result
        ≡ spec.first_of (option_map plain_prune first) (option_map plain_prune second) }
{
    match first {
        Some(prune) => Some(prune),
        None => second,
    }
}

/// What is found in two parts.
pub fn both(first: Found, second: Found) -> Found
    ensures { plain_found result ≡ spec.both (plain_found first) (plain_found second) }
{
    let Found { clash, free, prune } = first;
    let Found {
        clash: other_clash,
        free: other_free,
        prune: other,
    } = second;
    Found {
        clash: clash || other_clash,
        free: free && other_free,
        prune: first_of(prune, other),
    }
}
