// Prints what is answered at the edges of the limits: the largest that is taken, and the smallest that is refused.
#![tactic(auto)]

use binary::NibbleField;
use checks::fault::Fault;
use code::plan::{Counts, Plan};
use cutting::plans::counted_plan;
use field::SteppedField;
use prime::PrimeField;
use sheet::opened::OpenSheet;
use std::io;

// Prints whether it was done, or by which fault it was refused.
fn print_answer<T: Drop, E: Into<Fault>>(
    rt: &HostRuntime,
    what: &str,
    done: &str,
    answer: Result<T, E>,
) -> io::Result<()> {
    match answer {
        Ok(_) => println!(rt; "{what}: {done}"),
        Err(fault) => println!(rt; "{what}: refused {}", fault.into()),
    }
}

fn counts(data_count: usize, check_count: usize) -> Counts {
    Counts {
        data_count,
        check_count,
        row_len: 1,
    }
}

fn data_packets(rt: &HostRuntime) -> io::Result<()> {
    let field = PrimeField {};
    let largest = counted_plan(&field, counts(64, 1));
    print_answer(rt, "prime, 64 data packets", "made", largest)?;
    let above = counted_plan(&field, counts(65, 1));
    print_answer(rt, "prime, 65 data packets", "made", above)
}

fn nibble_packets(rt: &HostRuntime) -> io::Result<()> {
    let field = NibbleField {};
    let largest = counted_plan(&field, counts(8, 8));
    print_answer(rt, "nibble, 16 packets", "made", largest)?;
    let above = counted_plan(&field, counts(8, 9));
    print_answer(rt, "nibble, 17 packets", "made", above)?;
    let mut plan = Plan::new();
    let largest = plan.make_standard(&field, counts(8, 7));
    print_answer(rt, "nibble, 15 standard packets", "made", largest)?;
    let above = plan.make_standard(&field, counts(8, 8));
    print_answer(rt, "nibble, 16 standard packets", "made", above)
}

fn prime_symbols(rt: &HostRuntime) -> io::Result<()> {
    let mut plan = Plan::new();
    let made = plan.make(&PrimeField {}, counts(1, 1), &[0], &[256]);
    print_answer(rt, "prime, one data packet", "made", made)?;
    let mut buffer = [9u16; 1];
    let mut sheet = OpenSheet::open(&plan, &mut buffer);
    let largest = sheet.lay(0, &[256]);
    let above = sheet.lay(0, &[257]);
    let _ = sheet.close().into_buffer();
    print_answer(rt, "prime, symbol 256", "laid", largest)?;
    print_answer(rt, "prime, symbol 257", "laid", above)
}

fn main(rt: HostRuntime) -> io::Result<()> {
    data_packets(&rt)?;
    nibble_packets(&rt)?;
    prime_symbols(&rt)
}
