// The answers of the tokenizer and of the parser, in one batch.
use crate::lines::Numbers;

// Whether the numbers are those of the first n rows.
fn rows_agree(mut numbers: Numbers<'_>, rows: &[usize], n: usize) -> bool {
    let (rows, _) = rows.as_chunks::<7>();
    let Some(rows) = rows.get(..n) else {
        return false;
    };
    rows.iter().all(|row| numbers.are(&row[..6])) && numbers.rest.is_empty()
}

// A text of 256 bytes has at most 512 answers: one batch has room for them all, and one row more.
fn batch_agrees<B: FnOnce(&mut [usize]) -> usize>(batch: B, numbers: Numbers<'_>) -> bool
    requires { B.IsAlwaysCallable batch }
{
    let mut rows = [0usize; 3591];
    let n = batch(&mut rows);
    rows_agree(numbers, &rows, n)
}

pub fn tokens_agree(s: &[u8], numbers: Numbers<'_>) -> bool {
    let mut words = [0usize; 137];
    tokenizer_words::fresh(&mut words);
    batch_agrees(|rows| batches::tokenize(s, &mut words, rows), numbers)
}

pub fn parsing_agrees(s: &[u8], numbers: Numbers<'_>) -> bool {
    let mut words = [0usize; 278];
    parser_words::fresh_parser(&mut words);
    batch_agrees(|rows| batches::parse(s, &mut words, rows), numbers)
}
