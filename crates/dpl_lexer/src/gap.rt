// What stands between tokens: white space and comments.
// Nothing here takes memory.

ghost use Rattle.std.specs.Prelude.{◌≡◌, ◌≤◌, length, take, drop, true, false, Some, None, IfSome, IfNone};
ghost use Rattle.dpl_syntax.specs.Gaps.{on_line, all_are, next_is, opens_block, after_comments};
ghost use Rattle.dpl_lexer.specs.Scan.{IsPieceAt, IsDark};

use crate::ascii::{begins_with, next_is_space};

/// How many bytes there are up to the next newline.
fn line_len(bytes: &[u8]) -> usize
    ensures within { result ≤ length bytes.now }
    ensures all { all_are on_line (take result bytes.now) ≡ true }
    ensures ended { next_is on_line (drop result bytes.now) ≡ false }
{
    let mut n = 0;
    while n < bytes.len() && bytes[n] != b'\n' {
        n += 1;
    }
    n
}

/// How many bytes the comment has that opens with the first two, if it is ended.
fn block_len(bytes: &[u8]) -> Option<usize>
    requires { opens_block bytes.now ≡ true }
    ensures some { IfSome result (λ n. (2 ≤ n) × (n ≤ length bytes.now) × (after_comments 1 (drop 2 bytes.now) ≡ Some (drop n bytes.now))) }
    ensures none { IfNone result (after_comments 1 (drop 2 bytes.now) ≡ None) }
{
    let mut depth: usize = 1;
    let mut n = 2;
    'block: while n < bytes.len() {
        let (_, left) = bytes.split_at(n);
        if begins_with(left, b'/', b'*') {
            depth += 1;
            n += 2;
        } else if begins_with(left, b'*', b'/') {
            depth -= 1;
            n += 2;
            if depth == 0 {
                return Some(n);
            }
        } else {
            n += 1;
        }
    }
    None
}

/// How many bytes the piece of a gap at the front has, if one stands there.
pub fn piece_len(bytes: &[u8]) -> Option<usize>
    ensures some { IfSome result (IsPieceAt bytes.now) }
    ensures none { IfNone result (IsDark bytes.now) }
{
    if next_is_space(bytes) {
        return Some(1);
    }
    if begins_with(bytes, b'/', b'/') {
        return Some(line_len(bytes));
    }
    if begins_with(bytes, b'/', b'*') {
        return block_len(bytes);
    }
    None
}
