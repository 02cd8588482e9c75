// Functions on plain values that several crates call: as calls they leave a proof one path, where `&&` or `if` leave two.
#![tactic(auto)]

ghost use Rattle.std.specs.Prelude.{◌≡◌, ◌&&◌};
ghost use Rattle.laws.specs.Base.{one};

pub fn both(a: bool, b: bool) -> bool
    ensures { result ≡ (a && b) }
{
    a && b
}

// What a test adds to a count.
pub fn one(t: bool) -> u64
    ensures { result ≡ one t }
{
    u64::from(t)
}
