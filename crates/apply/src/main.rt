// Document 01's program: reads incoming.lay, target.lay, plan.pln and record.bin in the current folder and writes the
// output record's bytes, or `refused`, the refusal's number and a line feed. Of a file that is too long, a byte past
// its limit is read, which is enough to refuse it.
#![tactic(auto)]

use files::read_file;
use std::io;

// `answer` is that of `selector_run`.
fn report(rt: &impl Print, answer: u64, output: &[u8]) -> io::Result<()> {
    let number = answer / 0x1_0000_0000;
    if number == 0 {
        let n = output.len().min((answer % 0x1_0000_0000) as usize);
        return rt.write_all(&output[..n]);
    }
    println!(rt; "refused {number}")
}

fn run(
    rt: &impl Print,
    incoming: &[u8],
    target: &[u8],
    plan: &[u8],
    record: &[u8],
) -> io::Result<()> {
    let mut output = [0u8; 16384];
    let answer = selector::selector_run(incoming, target, plan, record, &mut output);
    report(rt, answer, &output)
}

fn main(rt: HostRuntime) -> io::Result<()> {
    let mut incoming = [0u8; 16385];
    let a = read_file(&rt, b"incoming.lay", &mut incoming);
    let mut target = [0u8; 16385];
    let b = read_file(&rt, b"target.lay", &mut target);
    let mut plan = [0u8; 65537];
    let c = read_file(&rt, b"plan.pln", &mut plan);
    let mut record = [0u8; 16385];
    let d = read_file(&rt, b"record.bin", &mut record);
    run(&rt, &incoming[..a], &target[..b], &plan[..c], &record[..d])
}
