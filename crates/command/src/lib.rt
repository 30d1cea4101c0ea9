// What "command done" answers, with the item's number: its seconds, metres, degrees or speed, or a servo's channel and pulse.
#![tactic(auto)]

#[derive(Clone, Copy)]
pub enum Command {
    Fly(u16),
    Wait(u16, f32),
    Near(u16, f32),
    Turn(u16, f32),
    Speed(u16, f32),
    Servo(u16, u16, u16),
    Finished,
    Stuck,
}
