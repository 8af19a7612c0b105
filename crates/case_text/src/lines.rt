ghost use Rattle.std.specs.Prelude.{◌≡◌};
ghost use Rattle.case_text.specs.Lines.{case_count, is_case};

// A comment begins with it.
const HASH: u8 = b'#';

const LINE_FEED: u8 = b'\n';

/// Whether a line is a case: it is not empty, and no comment.
pub fn is_case(line: &[u8]) -> bool
    ensures { result ≡ is_case line.now }
{
    match line {
        [] => false,
        [first, ..] => *first != HASH,
    }
}

/// How many lines of a case file are cases.
pub fn case_count(content: &[u8]) -> usize
    ensures { result ≡ case_count content.now }
{
    content
        .split(|byte| *byte == LINE_FEED)
        .filter(|line| is_case(line))
        .count()
}
