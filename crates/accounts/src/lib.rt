#![tactic(auto)]

ghost use Rattle.std.specs.Prelude.{◌≡◌, true, is_ok};
ghost use Rattle.accounts.specs.Accounts.{account_at, all_short, is_account_book, Listed};
ghost use Rattle.accounts.specs.Matches.{is_named, matches_from, first_of, walked, Found, Exact};
ghost use Rattle.accounts.specs.Names.{same_account, is_guest};
ghost use Rattle.books.specs.Books.{entries};
ghost use Rattle.books.specs.Views.{book_bytes};

use books::{Book, INVALID};
use sspi::Fault;
use text::eq_ignore_ascii_case;

// Whether the two names are one account's.
#[tactic(auto, unfolding(crate::specs::Names::same_account))]
pub fn same_account(a: &[u8], b: &[u8]) -> bool
    ensures { result ≡ same_account a.now b.now }
{
    eq_ignore_ascii_case(a, b)
}

// Whether the name is the guest's.
#[tactic(auto, unfolding(crate::specs::Names::is_guest))]
pub fn is_guest(name: &[u8]) -> bool
    ensures { result ≡ is_guest name.now }
{
    eq_ignore_ascii_case(name, b"/GUEST")
}

// Whether no entry is longer than 64 bytes.
fn all_short(book: &Book<'_>) -> bool
    ensures { result ≡ all_short (entries (book_bytes book.now)) }
{
    book.entries().all(|entry| entry.len() <= 64)
}

// The name of an account, and its secret.
#[derive(Clone, Copy)]
pub struct Account<'a> {
    pub name: &'a [u8],
    pub secret: &'a [u8],
}

// A book of names and secrets in turn.
#[derive(Clone, Copy)]
pub struct AccountBook<'a> {
    book: Book<'a>,
    pub ghost lawful: { is_account_book (book_bytes book) ≡ true },
}

impl<'a> AccountBook<'a> {
    ghost use Rattle.accounts.specs.Views.{account_bytes, accounts_read, read_accounts, seen_account};

    // Reads an account book that fills the bytes.
    #[tactic(auto, using(std::proofs::lemmas::Bool::Decides::nat_tests, crate::proofs::Listing::no_book, crate::proofs::Listing::same_bytes), unfolding(crate::specs::Accounts::is_account_book))]
    pub fn read(bytes: &'a [u8]) -> Result<AccountBook<'a>, Fault>
        ensures answer { accounts_read result ≡ read_accounts bytes.now }
        ensures test { is_ok result ≡ is_account_book bytes.now }
    {
        let book = Book::read(bytes)?;
        if book.len() % 2 != 0 || !all_short(&book) {
            return Err(INVALID);
        }
        Ok(AccountBook { book })
    }

    // Account i, if the book has one.
    pub fn account(&self, i: usize) -> Option<Account<'a>>
        ensures answer { seen_account result ≡ account_at (account_bytes self.now) i }
        ensures listed { Listed (account_bytes self.now) i }
    {
        if i >= self.book.len() / 2 {
            return None;
        }
        let name = self.book.entry(2 * i)?;
        let secret = self.book.entry(2 * i + 1)?;
        Some(Account { name, secret })
    }

    // Whether account i is there and has this name.
    fn is_named(&self, i: usize, name: &[u8]) -> bool
        ensures { result ≡ is_named name.now (account_at (account_bytes self.now) i) }
    {
        self.account(i)
            .is_some_and(|account| same_account(account.name, name))
    }

    // The first account of this name, of those from account `from` on. Called again behind each that it finds, it walks through all of
    // them in the order of the book.
    pub fn next_match(&self, name: &[u8], from: usize) -> Option<usize>
        ensures answer { result ≡ first_of (matches_from name.now (account_bytes self.now) from) }
        ensures walks { matches_from name.now (account_bytes self.now) from ≡ walked name.now (account_bytes self.now) result }
        ensures found { Found (account_bytes self.now) from result }
        ensures exact { Exact name.now (account_bytes self.now) from }
    {
        (from..self.book.len() / 2).find(|i| self.is_named(*i, name))
    }
}
