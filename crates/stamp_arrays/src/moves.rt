// What a step of the timestamp desk is to do, decided before anything changes (02, No. 6).
use terms::letters::Ask;

// Open a place for a new number, close the job at a place, send it back, or let it act on the cell as it asked.
#[derive(Clone, Copy)]
pub enum Move {
    // a place gets a number
    Begin(usize, u32),
    // the job at a place is closed, by commit or give-up
    Close(usize),
    // the job at a place is sent back, which closes it
    SendBack(usize),
    // the job goes on, and the cell's numbers record it
    Act(Ask),
}
