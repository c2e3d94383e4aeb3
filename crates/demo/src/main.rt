// Tells three failures of earlier versions at sea, and what this one answers. Each answer printed is the store's own, on a
// table in memory; the clocks are fixed, so the story is the same every time.
#![tactic(auto)]

mod erased;
mod expiry;
mod fleet;
mod frames;
mod shore;
mod tell;

fn main() {
    tell::text(
        b"The contact store, version four: three failures of earlier versions at sea, told again\n",
    );
    expiry::chapter();
    erased::chapter();
    fleet::chapter();
    tell::text(b"\ndocs/PROMISES.md says what is proved of every request, table and clock.\n");
}
