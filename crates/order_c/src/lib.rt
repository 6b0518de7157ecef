// The exported calls, for the order office's Rust program and for C: numbers and byte slices, each slice a pointer and then a length.
// Each calls the function of its name in `order`, with the same clauses: C takes no generic function, and the theorems stand on a library,
// which a static library is not.
#![tactic(auto)]

ghost use Rattle.choosing.specs.Calls.{Chosen};
ghost use Rattle.order.specs.Promises.{Copied, FlowGiven, DutyGiven, HeatGiven, MeterGiven, Rated, LossesGiven, HeadsGiven};

/// Reads a record and writes it again: 1 to 7, 14, or the record's bytes.
#[unsafe(no_mangle)]
pub extern "C" fn order_copy(job: &[u8], out: &mut [u8]) -> u32
    ensures { Copied job.now out.old out.new result }
{
    order::order_copy(job, out)
}

/// Hour, day, mean hour and S flows: 1 to 9, 14, or the flow result.
#[unsafe(no_mangle)]
pub extern "C" fn order_flow(job: &[u8], out: &mut [u8]) -> u32
    ensures { FlowGiven job.now out.old out.new result }
{
    order::order_flow(job, out)
}

/// The house's design flow, which the pump set delivers: 1 to 9, 14, or four bytes.
#[unsafe(no_mangle)]
pub extern "C" fn order_duty(job: &[u8], out: &mut [u8]) -> u32
    ensures { DutyGiven job.now out.old out.new result }
{
    order::order_duty(job, out)
}

/// The heat flows of a hot line, from cold water of t °C and with a loss in W: 1 to 9, 20, 21, 14, or eight bytes.
#[unsafe(no_mangle)]
pub extern "C" fn order_heat(job: &[u8], t: u32, loss: u32, out: &mut [u8]) -> u32
    ensures { HeatGiven job.now t loss out.old out.new result }
{
    order::order_heat(job, t, loss, out)
}

/// The meter that wins, and the job with its loss: 1 to 9, 17, 14, 18, or the place and the record.
#[unsafe(no_mangle)]
pub extern "C" fn order_meter(job: &[u8], meters: &[u8], out: &mut [u8]) -> u32
    ensures { MeterGiven job.now meters.now out.old out.new result }
{
    order::order_meter(job, meters, out)
}

/// Heads, velocities and losses of a list of sizes: 1 to 14, or the rating result.
#[unsafe(no_mangle)]
pub extern "C" fn order_rate(job: &[u8], cat: &[u8], sizes: &[u8], out: &mut [u8]) -> u32
    ensures { Rated job.now cat.now sizes.now out.old out.new result }
{
    order::order_rate(job, cat, sizes, out)
}

/// Flow, velocity and loss of each section, without the heads: 1 to 14, or the losses result.
#[unsafe(no_mangle)]
pub extern "C" fn order_losses(job: &[u8], cat: &[u8], sizes: &[u8], out: &mut [u8]) -> u32
    ensures { LossesGiven job.now cat.now sizes.now out.old out.new result }
{
    order::order_losses(job, cat, sizes, out)
}

/// The heads with losses that are given: 1 to 9, 19, 14, or the heads result.
#[unsafe(no_mangle)]
pub extern "C" fn order_heads(job: &[u8], losses: &[u8], out: &mut [u8]) -> u32
    ensures { HeadsGiven job.now losses.now out.old out.new result }
{
    order::order_heads(job, losses, out)
}

/// A list of sizes of least cost: 1 to 11, 14, 15, 16, or the choosing result.
#[unsafe(no_mangle)]
pub extern "C" fn order_choose(job: &[u8], cat: &[u8], work: &mut [u8], out: &mut [u8]) -> u32
    ensures { Chosen job.now cat.now out.old work.old out.new work.new result }
{
    order::order_choose(job, cat, work, out)
}
