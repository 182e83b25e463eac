// What holds of client files, as the contract of a function that does nothing.
ghost use Rattle.order_queue.specs.Orders.{FilesAreSubmissions};

/// A client file that is read, as an arrival file, has at most 1,000,000 transactions, each with a line: a client may submit them.
pub fn files_are_submissions()
    ensures { FilesAreSubmissions }
{}
