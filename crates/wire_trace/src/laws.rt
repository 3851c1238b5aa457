//! What follows from the definitions alone, each as the contract of a function that does nothing.
ghost use Rattle.std.specs.Prelude.{◌≡◌, ◌<◌, List, ℕ, All, Ok};
ghost use Rattle.pipe_model.specs.declared.post.Placed.{Placed};
ghost use Rattle.pipe_model.specs.declared.entry.Entry.{Entry};
ghost use Rattle.wire_trace.specs.Files.{file_of, posts_in, posts_of};
ghost use Rattle.wire_trace.specs.Traced.{IsPlaced, AreTraced, AreTold, AreWritable};

/// The file of posts that can be written is read as these posts, in order.
pub fn what_was_written_is_read()
    ensures { (posts : List Placed) → AreTraced posts → posts_of (file_of posts) ≡ Ok posts }
{}

/// A history whose posts are told wholly can be written, and its trace is read as its posts, in order.
pub fn a_history_is_read_of_its_trace()
    ensures written { (entries : List Entry) → AreTold entries → AreWritable entries }
    ensures read { (entries : List Entry) → AreTold entries
        → posts_of (file_of (posts_in entries)) ≡ Ok (posts_in entries) }
{}

/// No two lists of posts have the same file, where their links have names and their messages are such
/// as are read again.
pub fn no_other_posts_have_the_file()
    ensures { (posts others : List Placed) → All IsPlaced posts → All IsPlaced others
        → file_of posts ≡ file_of others → posts ≡ others }
{}

/// Where posts are read of bytes, these are their file, and the posts can be written.
pub fn what_is_read_is_the_file()
    ensures file { (bytes : List ℕ) (posts : List Placed) → All (λ byte. byte < 256) bytes
        → posts_of bytes ≡ Ok posts → file_of posts ≡ bytes }
    ensures traced { (bytes : List ℕ) (posts : List Placed) → All (λ byte. byte < 256) bytes
        → posts_of bytes ≡ Ok posts → AreTraced posts }
{}
