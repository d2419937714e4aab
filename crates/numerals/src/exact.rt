// Equality that tells values apart.
ghost use Rattle.std.specs.Prelude.{◌≡◌, true};

// A type whose `==` holds only between a value and itself.
pub trait Exact: PartialEq {
    ghost exact: { (x y : Self) → Self.eq x y ≡ true → x ≡ y };

    ghost whole: { (x : Self) → Self.eq x x ≡ true };
}
