// A batch of texts in one input: each text is ended by an empty line or by the end of the input.
#![tactic(auto)]

ghost use Rattle.std.specs.Prelude.{ℕ, ◌<◌, ◌≤◌, length, true, false, ◌≡◌};
ghost use Rattle.batch.specs.Batch.{empty_line};

// Where the text at the front of `input` ends: at its first empty line, or else at its end.
pub fn text_end(input: &[u8]) -> usize
    ensures within { result ≤ length input.now }
    ensures before { (k : ℕ) → k < result → empty_line input.now k ≡ false }
    ensures found { result < length input.now → empty_line input.now result ≡ true }
{
    if input.starts_with(b"\n") {
        return 0;
    }
    input
        .windows(2)
        .position(|pair| matches!(pair, [b'\n', b'\n']))
        .map_or(input.len(), |at| at + 1)
}
