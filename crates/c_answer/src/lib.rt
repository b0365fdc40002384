// An answer as one number, which crosses every language's border.
#![tactic(auto)]

ghost use Rattle.std.specs.Prelude.{◌≡◌, ℕ, MatchResult};
ghost use Rattle.layout.specs.Answers.{Done, Refused};
ghost use Rattle.c_answer.specs.Packed.{packed};

// An answer as one number. A refusal is of any type that gives a number.
pub fn pack<E: Into<u32>>(a: Result<u32, E>) -> u64
    ensures { MatchResult a (λ count. result ≡ packed (Done count)) (λ refusal. (number : ℕ) × E.converts refusal number × (result ≡ packed (Refused number))) }
{
    match a {
        Ok(count) => u64::from(count),
        Err(refusal) => {
            let number: u32 = refusal.into();
            u64::from(number) * 4294967296
        }
    }
}
