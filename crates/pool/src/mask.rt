ghost use Rattle.std.specs.Prelude.{◌≡◌, ◌<◌};
ghost use Rattle.pool.specs.Masks.{has_member, with_member, without_member};

// A set of numbers below 64 as a mask: bit k is 1 where k is in the set.
pub(crate) fn has_member(mask: u64, member: usize) -> bool
    requires { member < 64 }
    ensures { result ≡ has_member mask member }
{
    mask >> member & 1 == 1
}

pub(crate) fn with_member(mask: u64, member: usize) -> u64
    requires { member < 64 }
    ensures { result ≡ with_member mask member }
{
    mask | 1 << member
}

pub(crate) fn without_member(mask: u64, member: usize) -> u64
    requires { member < 64 }
    ensures { result ≡ without_member mask member }
{
    mask & !(1 << member)
}
