// Words compared with a text.
ghost use Rattle.std.specs.Prelude.{◌≡◌, ◌+◌, ◌≤◌, length, take, drop, nat_eq};
ghost use Rattle.std.specs.List.{common_prefix_len};

// How many bytes at the front of `text` and `word` are the same.
fn same_at_front(text: &[u8], word: &[u8]) -> usize
    ensures value { result ≡ common_prefix_len nat_eq text.now word.now }
    ensures within { (result ≤ length text.now) × (result ≤ length word.now) }
    ensures same { take result text.now ≡ take result word.now }
{
    text.iter()
        .zip(word)
        .take_while(|(byte, other)| byte == other)
        .count()
}

// The length of the longest beginning that `text` and `word` have in common, where their first `at` bytes are known to agree.
fn common_past(text: &[u8], word: &[u8], at: usize) -> usize
    requires within { (at ≤ length text.now) × (at ≤ length word.now) }
    requires agree { take at text.now ≡ take at word.now }
    ensures value { result ≡ at + common_prefix_len nat_eq (drop at text.now) (drop at word.now) }
    ensures within { (result ≤ length text.now) × (result ≤ length word.now) }
    ensures same { take result text.now ≡ take result word.now }
{
    at + same_at_front(&text[at..], &word[at..])
}

// The length of the longest beginning that `text` and `word` have in common.
pub fn common_length(text: &[u8], word: &[u8]) -> usize
    ensures value { result ≡ common_prefix_len nat_eq text.now word.now }
    ensures within { (result ≤ length text.now) × (result ≤ length word.now) }
    ensures same { take result text.now ≡ take result word.now }
{
    common_past(text, word, 0)
}
