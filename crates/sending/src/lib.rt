#![tactic(auto)]
// The writer's answer in numbers. 0: the number lent is the encoding's length. 1 to 11: refused, and it is the place. With no number lent it is 12, and
// refused too.
ghost use Rattle.std.specs.Prelude.{◌≡◌};
ghost use Rattle.sending.specs.Sent.{sent};

// The work numbers are zero and the output is as before, if it is not 0.
pub fn send(list: &[u8], out: &mut [u8], work: &mut [u32], answer: &mut [u64]) -> u32
    ensures { record { code = result; held = answer.new; output = out.new; work = work.new }
        ≡ sent list.now out.old work.old answer.old }
{
    if answer.len() < 1 {
        container::clear(work);
        return replies::TOO_FEW;
    }
    match write::write(list, out, work) {
        Ok(length) => {
            answer[0] = length as u64;
            0
        }
        Err(refused) => {
            answer[0] = refused.place as u64;
            frames::refusal_number(refused.refusal)
        }
    }
}
