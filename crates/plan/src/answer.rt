// What a call answers that writes into a lent buffer: the result's length; or a refusal's number and place.
#[derive(Clone, Copy)]
pub enum WriteResult {
    Written(usize),
    Refused(u8, u16),
}
