// An answer in numbers, over a list that is lent for them.
ghost use Rattle.std.specs.Prelude.{◌≡◌, [], ◌∷◌};
ghost use Rattle.refusals.specs.Refusals.{refusal_in};
ghost use Rattle.single.specs.Told.{numbers_or};

use refusals::Refusal;

// The answer is the refusal, 0 where there is none; a refusal leaves what was lent.
pub fn tell<const N: usize>(told: &mut [u64; N], answer: Result<[u64; N], Refusal>) -> u64
    ensures refusal { result ≡ refusal_in answer.entry }
    ensures told { told.new ≡ numbers_or answer.entry told.old }
{
    match answer {
        Ok(numbers) => {
            *told = numbers;
            0
        }
        Err(refusal) => refusal.number() as u64,
    }
}

pub fn number(number: u64) -> [u64; 1]
    ensures { result ≡ number ∷ [] }
{
    [number]
}

pub fn count(count: usize) -> [u64; 1]
    ensures { result ≡ count ∷ [] }
{
    [count as u64]
}
