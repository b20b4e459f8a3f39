// The program `plan`: prints the listing of the job text on standard input, or the line of its refusal.
#![tactic(auto)]

// The numbers of standard input and standard output, by which the kit's `io` reads and writes with fixed buffers and no heap. The library's
// reader and writer would need a loop here, and an answer to a failed read or write; `io` just ends there, as this program does.
const STDIN: i32 = 0;

const STDOUT: i32 = 1;

// Reads as much as the input buffer holds, and looks whether a byte follows.
fn main() {
    let mut input = [0u8; program_sizes::INPUT_BYTES];
    let mut behind = [0u8; 1];
    let read = io::read_full(STDIN, &mut input);
    let more = io::read_full(STDIN, &mut behind);
    let mut output = [0u8; program_sizes::LISTING_BYTES];
    let answer = listing::listing(&input[..read], more != 0, &mut output);
    // By its contract the count is within the output, but main cannot see the contract, so it asks.
    if let Some(printed) = output.get(..answer.count as usize) {
        io::write_all(STDOUT, printed);
    }
}
