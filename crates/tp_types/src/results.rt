//! Answers of two calls taken together.
ghost use Rattle.std.specs.Prelude.{◌≡◌, ◌⊎◌, Ok, Err, IfOk, IfErr, IsOk};

/// Both values, or the first failure. Whoever makes something of several parts takes their answers together so, and holds no part
/// where another may fail.
pub fn both<T: Drop, U: Drop, E: Drop>(
    first: Result<T, E>,
    second: Result<U, E>,
) -> Result<(T, U), E>
    ensures ok { IfOk result (λ made. (first ≡ Ok made.0) × (second ≡ Ok made.1)) }
    ensures err { IfErr result (λ error.
        (first ≡ Err error) ⊎ (IsOk first × (second ≡ Err error))) }
{
    match (first, second) {
        (Ok(one), Ok(other)) => Ok((one, other)),
        (Err(error), _) => Err(error),
        (Ok(_), Err(error)) => Err(error),
    }
}
