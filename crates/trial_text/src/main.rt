// Tries the listing of a job text against what a plain reading of the rules prints for it, written apart from the product (tests/texts.py,
// which also made the input and says what a case is): every refusal that a text can meet, every size met exactly and exceeded by one, trees
// of many forms, real patterns, texts drawn and damaged. Compares the answer and every byte of the lent slice, the zeros behind what is
// printed too. Prints how often each number was printed; it names a case with anything wrong.
#![tactic(auto)]

ghost use Rattle.std.specs.Prelude.{◌≤◌, ◌<◌};

use papers::Answer;
use trial_tallies::Tally;

// The head of a case, `ttttt m lllll` and a newline: bytes of text, 1 if more input follows them, bytes that must be printed.
pub type Head = [u8; 14];

// More bytes than the program `plan` keeps of a text.
pub type Text = [u8; 8448];

// A slice longer than any listing needs, as it must be after a call: what is printed, then zeros.
pub type Printed = [u8; 24600];

// The numbers that a listing prints.
const TOLD: [usize; 9] = [0, 2, 3, 5, 6, 8, 9, 25, 26];

// A digit.
fn digit(byte: u8) -> usize
    ensures { result < 10 }
{
    (byte % 16 % 10) as usize
}

// The number of the five digits from a place on.
fn five_digits(head: &Head, first: usize) -> usize {
    head.iter()
        .skip(first)
        .take(5)
        .fold(0, |number, byte| number % 10000 * 10 + digit(*byte))
}

// The length of the text; like that of what is printed, but for the bound that it keeps.
fn text_length(head: &Head) -> usize
    ensures { result ≤ 8448 }
{
    five_digits(head, 0) % 8449
}

fn more(head: &Head) -> bool {
    head[6] == b'1'
}

fn printed_length(head: &Head) -> usize
    ensures { result ≤ 24600 }
{
    five_digits(head, 8) % 24601
}

// The number that is printed: 0 by a listing, which begins with `plan`, else the one or two digits behind `refused `.
fn number_told(printed: &Printed) -> usize
    ensures { result < 100 }
{
    if printed[0] == b'p' {
        return 0;
    }
    let first = digit(printed[8]);
    if printed[9] == b' ' {
        return first;
    }
    first * 10 + digit(printed[9])
}

// Tests whether an answer is that of a listing of this many bytes.
fn listed(answer: Answer, printed: usize) -> bool {
    answer.number == 0 && answer.place == 0 && answer.count == printed as u64
}

// Lends a slice that holds something at every place, and compares what a call makes of it. The right number names a case with anything
// wrong.
fn hold(tally: &mut Tally<()>, head: &Head, text: &Text, right: &Printed) {
    let mut printed = [7u8; 24600];
    let given = slices::part(text, text_length(head));
    let answer = listing::listing(given, more(head), &mut printed);
    let sound = listed(answer, printed_length(head)) && printed == *right;
    let told = number_told(&printed) as u64;
    tally.tell(told, usize::from(!sound), number_told(right) as u64, 0);
}

// Tries the next case. Answers whether there was one.
fn hold_next(tally: &mut Tally<()>) -> bool {
    let mut head = [0u8; 14];
    if io::read_full(0, &mut head) < 14 {
        return false;
    }
    let mut text = [0u8; 8448];
    let mut right = [0u8; 24600];
    let a = text_length(&head);
    let b = printed_length(&head);
    io::read_full(0, &mut text[..a]);
    io::read_full(0, &mut right[..b]);
    hold(tally, &head, &text, &right);
    true
}

// Tries all cases, but no more than `most`.
fn hold_all(tally: &mut Tally<()>, most: usize) {
    for _ in 0..most {
        if !hold_next(tally) {
            return;
        }
    }
}

// Ends in the same way if the output takes nothing.
fn main() {
    let mut tally = Tally::new(());
    hold_all(&mut tally, 1000000);
    let _ = tally.print("told", &TOLD);
}
