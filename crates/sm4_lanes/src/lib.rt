// Several SM4 blocks under one key side by side: a round waits for the one before it, and the rounds of other blocks fill the wait.
// For the proved layers above: they give the lengths that these functions require.
#![tactic(auto)]

mod fresh;
mod rounds;

pub use fresh::first_each;
pub use rounds::rounds_each;
