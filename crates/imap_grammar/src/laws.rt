//! Laws of the definitions.
ghost use Rattle.std.specs.Prelude.{◌≡◌, ◌≤◌, ◌++◌, ℕ, List, [], length, Some, codes, false, true};
ghost use Rattle.mail_text.specs.Texts.{begins};
ghost use Rattle.imap_grammar.specs.declared.classes.Class.TheVariants.{Atom, Astring, Pattern};
ghost use Rattle.imap_grammar.specs.declared.commands.Command.TheVariants as command;
ghost use Rattle.imap_grammar.specs.Classes.{is_in};
ghost use Rattle.imap_grammar.specs.Lists.{IsList};
ghost use Rattle.imap_grammar.specs.Words.{keyword};
ghost use Rattle.imap_grammar.specs.Strings.{astring, pattern, some};
ghost use Rattle.imap_grammar.specs.Sets.{range};
ghost use Rattle.imap_grammar.specs.Flags.{flag};
ghost use Rattle.imap_grammar.specs.Mailboxes.{status_items};
ghost use Rattle.imap_grammar.specs.Selecting.{opening};
ghost use Rattle.imap_grammar.specs.Fetching.{fetch_item, numbered, numbered_from};
ghost use Rattle.imap_grammar.specs.Finding.{sort_key};
ghost use Rattle.imap_grammar.specs.Searching.{within};
ghost use Rattle.imap_grammar.specs.Written.{IsReadAs, IsWritten};

/// A list is read in turns, as many at most as the text has bytes. That is enough, so what is read is one, or one and a list:
/// the ranges of a set, flags, the names of ENABLE, those of fields, items of STATUS and FETCH, words of SELECT, keys of SORT, keys of
/// searches within any number of levels, and the numbers of a part.
pub fn law_lists()
    ensures ranges { IsList range }
    ensures flags { IsList flag }
    ensures atoms { IsList (some Atom) }
    ensures names { IsList astring }
    ensures status { IsList (keyword status_items) }
    ensures openings { IsList opening }
    ensures items { IsList fetch_item }
    ensures sorted { IsList sort_key }
    ensures keys { (levels : ℕ) → IsList (within levels) }
    ensures numbers { (turns : ℕ) (text : List ℕ) → length text ≤ turns → numbered_from turns [] text ≡ numbered text }
{}

/// What clients write is read as what they mean, in whatever case the name of the command is, and however its strings are written.
pub fn law_commands()
    ensures strings { (bytes text rest : List ℕ) → IsWritten Astring bytes text → begins (is_in Astring) rest ≡ false → astring (text ++ rest) ≡ Some (bytes, rest) }
    ensures patterns { (bytes text rest : List ℕ) → IsWritten Pattern bytes text → begins (is_in Pattern) rest ≡ false → pattern (text ++ rest) ≡ Some (bytes, rest) }
    ensures capability { IsReadAs (codes "CAPABILITY") [] command.Capability }
    ensures noop { IsReadAs (codes "NOOP") [] command.Noop }
    ensures logout { IsReadAs (codes "LOGOUT") [] command.Logout }
    ensures check { IsReadAs (codes "CHECK") [] command.Check }
    ensures close { IsReadAs (codes "CLOSE") [] command.Close }
    ensures expunge { IsReadAs (codes "EXPUNGE") [] command.Expunge }
    ensures login { (name password a b : List ℕ) → IsWritten Astring name a → IsWritten Astring password b
        → IsReadAs (codes "LOGIN") (codes " " ++ (a ++ (codes " " ++ b))) (command.Login name password) }
    ensures create { (name a : List ℕ) → IsWritten Astring name a → IsReadAs (codes "CREATE") (codes " " ++ a) (command.Create name) }
    ensures delete { (name a : List ℕ) → IsWritten Astring name a → IsReadAs (codes "DELETE") (codes " " ++ a) (command.Delete name) }
    ensures subscribe { (name a : List ℕ) → IsWritten Astring name a → IsReadAs (codes "SUBSCRIBE") (codes " " ++ a) (command.Subscribe name) }
    ensures unsubscribe { (name a : List ℕ) → IsWritten Astring name a → IsReadAs (codes "UNSUBSCRIBE") (codes " " ++ a) (command.Unsubscribe name) }
    ensures rename { (from to a b : List ℕ) → IsWritten Astring from a → IsWritten Astring to b
        → IsReadAs (codes "RENAME") (codes " " ++ (a ++ (codes " " ++ b))) (command.Rename from to) }
    ensures list { (reference name a b : List ℕ) → IsWritten Astring reference a → IsWritten Pattern name b
        → IsReadAs (codes "LIST") (codes " " ++ (a ++ (codes " " ++ b))) (command.List reference name false) }
    ensures lsub { (reference name a b : List ℕ) → IsWritten Astring reference a → IsWritten Pattern name b
        → IsReadAs (codes "LSUB") (codes " " ++ (a ++ (codes " " ++ b))) (command.List reference name true) }
{}
