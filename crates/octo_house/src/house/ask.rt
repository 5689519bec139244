//! How asks are answered.
ghost use Rattle.std.specs.Prelude.{◌≡◌, ◌↔◌, ◌≤◌, ◌==◌, length, List, Option, None, true, false, MatchResult};
ghost use Rattle.octo_access.specs.declared.permission.Permission.{Permission};
ghost use Rattle.octo_asks.specs.Rights.{needed};
ghost use Rattle.octo_asks.specs.declared.answer.Answer.TheVariants as answer;
ghost use Rattle.octo_asks.specs.declared.request.Request.TheVariants.{Backup};
ghost use Rattle.octo_house_tables.specs.Counts.{IsPlain};
ghost use Rattle.octo_keeper.specs.declared.shelf.ShelfFile.{ShelfFile};
ghost use Rattle.print_queue.specs.Calls.{new_entry};
ghost use Rattle.print_queue.specs.Lawful.{IsWholeRow};
ghost use Rattle.octo_house_rules.specs.Access.{is_denied};
ghost use Rattle.octo_house_rules.specs.Answers.{verdict, request_verdict, free_verdict, lacking};
ghost use Rattle.octo_house_rules.specs.Prints.{connect_verdict};
ghost use Rattle.octo_house_rules.specs.Reads.{backup_verdict};
ghost use Rattle.octo_house_rules.specs.Rows.{put_entry_verdict};
ghost use Rattle.octo_house_rules.specs.Verdict.{gives};
ghost use Rattle.octo_house.specs.Answered.{Answers, AnswersOn, AnswersOnSome, Shelves, IsUntouched, AskDone, KeeperDone};
ghost use Rattle.octo_house.specs.Asking.{IsPermitted, IsTurnedAway};
ghost use Rattle.octo_house.specs.Groups.{is_edit, is_row, is_reading, has_file};
ghost use Rattle.octo_house.specs.State.{IsDeskAlone, known_of};

use super::House;
use super::upload::Wanted;
use octo_access::{Permission, UserRow};
use octo_asks::{Answer, Ask, Request, needed};
use octo_house_tables::{answer_of_keeper_fault, asked_entry};
use octo_keeper::{Keeper, Shelf};
use print_queue::QueueEntry;

// Whether a request needs no permission.
fn is_free(request: &Request) -> bool
    ensures { result ≡ (length (needed request.now) == 0) }
{
    needed(request).as_slice().is_empty()
}

impl House {
    /// Answers an ask: the first refusal that applies, or what is done. If the keeper or the shelf fails, or memory runs out,
    /// nothing changes, except that a file that was stored already stays stored.
    pub fn ask<K: Keeper, S: Shelf>(&mut self, keeper: &mut K, shelf: &mut S, ask: Ask) -> Answer
        // Who is denied, whatever the files are; nothing changes then.
        ensures denied { (files : List ShelfFile) (permission : Option Permission)
            → (result ≡ answer.Denied permission)
            ↔ (verdict ask files (known_of self.old) ≡ gives (answer.Denied permission)) }
        ensures untouched { is_denied result ≡ true → IsUntouched
            keeper.old keeper.new shelf.old shelf.new self.old self.new }

        // The answer, and what it leaves of the host and of the files.
        ensures done { AnswersOn (S.state shelf.old).files
            (λ files. verdict ask files (known_of self.old)) result self.old self.new }
        ensures some { AnswersOnSome
            (λ files. verdict ask files (known_of self.old)) result self.old self.new }
        ensures files { Shelves (S.state shelf.old).files (S.state shelf.new).files
            (λ files. verdict ask files (known_of self.old)) result }

        // A backup that is accepted has the tables as they were.
        ensures saved { ask.request ≡ Backup → result ≡ answer.Accepted
            → (K.state keeper.new).saved ≡ (K.state keeper.old).tables }

        // What it leaves else, and the counts of faults.
        ensures rest { AskDone (K.state keeper.old) (K.state keeper.new)
            (S.state shelf.old) (S.state shelf.new) result self.old self.new }
    {
        if is_free(&ask.request) {
            return self.free(&ask);
        }
        match self.permitted(&ask) {
            Ok(user) => self.answer(keeper, shelf, &user, ask.request),
            Err(answer) => answer,
        }
    }

    /// Answers the host's own ask: begins to connect to its first port.
    pub fn connect_itself(&mut self) -> Answer
        ensures done { Answers (connect_verdict None (known_of self.old)) result
            self.old self.new }
        ensures alone { IsDeskAlone self.old self.new }
        ensures plain { IsPlain result }
    {
        self.desk.connect(&None)
    }

    // Answers a request that needs no permission.
    fn free(&mut self, ask: &Ask) -> Answer
        ensures done { Answers (free_verdict ask.now.key ask.now.request (known_of self.old))
            result self.old self.new }
        ensures alone { IsDeskAlone self.old self.new }
        ensures plain { IsPlain result }
    {
        match &ask.request {
            Request::Caller => self.named(ask.key.as_slice()),
            Request::AutoConnect => self.connect_itself(),
            _ => Answer::Accepted,
        }
    }

    // The user who asks and may. Else the answer: the key is nobody's, or a permission is lacking.
    fn permitted(&self, ask: &Ask) -> Result<UserRow, Answer>
        requires { (length (needed ask.now.request) == 0) ≡ false }
        ensures { MatchResult result
            (λ user. IsPermitted ask.now (known_of self.now) user)
            (λ answer. IsTurnedAway ask.now (known_of self.now) answer) }
    {
        let permissions = needed(&ask.request);
        let Some(user) = self.tables.caller(&self.policy, ask.key.as_slice()) else {
            return Err(Answer::Denied { permission: None });
        };
        match self.lacking(&user, permissions.as_slice()) {
            Some(permission) => Err(Answer::Denied {
                permission: Some(permission),
            }),
            None => Ok(user),
        }
    }

    // The first of the permissions that a user lacks.
    fn lacking(&self, user: &UserRow, permissions: &[Permission]) -> Option<Permission>
        ensures { result ≡ lacking (known_of self.now) user.now permissions.now }
    {
        for permission in permissions {
            if !self.policy.allowed(user, *permission) {
                return Some(*permission);
            }
        }
        None
    }

    // Answers a permitted request. The file of an upload, and what was fetched for a download, are taken out of it, and so aren't
    // copied.
    fn answer<K: Keeper, S: Shelf>(
        &mut self,
        keeper: &mut K,
        shelf: &mut S,
        user: &UserRow,
        request: Request,
    ) -> Answer
        ensures done { AnswersOn (S.state shelf.old).files
            (λ files. request_verdict request user.now files (known_of self.old))
            result self.old self.new }
        ensures some { is_reading request ≡ true → AnswersOnSome
            (λ files. request_verdict request user.now files (known_of self.old))
            result self.old self.new }
        ensures granted { is_reading request ≡ true → is_denied result ≡ false }
        ensures files { Shelves (S.state shelf.old).files (S.state shelf.new).files
            (λ files. request_verdict request user.now files (known_of self.old)) result }
        ensures saved { request ≡ Backup → result ≡ answer.Accepted
            → (K.state keeper.new).saved ≡ (K.state keeper.old).tables }
        ensures rest { AskDone (K.state keeper.old) (K.state keeper.new)
            (S.state shelf.old) (S.state shelf.new) result self.old self.new }
    {
        match request {
            Request::PutFile {
                name,
                file,
                select,
                print,
            } => self.put_file(keeper, shelf, user, &name, file, Wanted { select, print }),
            Request::Download { name } => {
                let (name, fetched) = name.into_parts();
                self.download(shelf, &name, fetched)
            }
            other => self.answer_other(keeper, shelf, user, &other),
        }
    }

    // Answers a permitted request that holds no file: first those that show something, then those for the desk and the
    // selected file.
    fn answer_other<K: Keeper, S: Shelf>(
        &mut self,
        keeper: &mut K,
        shelf: &mut S,
        user: &UserRow,
        request: &Request,
    ) -> Answer
        requires { has_file request.now ≡ false }
        ensures done { AnswersOn (S.state shelf.old).files
            (λ files. request_verdict request.now user.now files (known_of self.old))
            result self.old self.new }
        ensures some { is_reading request.now ≡ true → AnswersOnSome
            (λ files. request_verdict request.now user.now files (known_of self.old))
            result self.old self.new }
        ensures granted { is_reading request.now ≡ true → is_denied result ≡ false }
        ensures files { Shelves (S.state shelf.old).files (S.state shelf.new).files
            (λ files. request_verdict request.now user.now files (known_of self.old)) result }
        ensures saved { request.now ≡ Backup → result ≡ answer.Accepted
            → (K.state keeper.new).saved ≡ (K.state keeper.old).tables }
        ensures rest { AskDone (K.state keeper.old) (K.state keeper.new)
            (S.state shelf.old) (S.state shelf.new) result self.old self.new }
    {
        match request {
            Request::Version => Answer::Version,
            Request::GetLimits => self.desk.limits(),
            Request::GetConnection => self.desk.connection(),
            Request::GetPrinter => self.desk.printer(),
            Request::GetJob => self.desk.job(),
            Request::ListFiles => self.list_files(shelf),
            Request::GetFile { name } => self.file(shelf, name),
            Request::ListUsers => self.list_users(),
            Request::ListQueue => self.list_queue(user),
            Request::ListPrints => self.list_prints(user),
            Request::Shutdown => self.desk.shut_down(),
            Request::Caller | Request::Leave | Request::AutoConnect => Answer::Accepted,
            Request::Connect { port } => self.desk.connect(port),
            Request::Disconnect => self.desk.disconnect(),
            Request::HeatTool { degrees } => self.desk.heat_tool(*degrees),
            Request::HeatBed { degrees } => self.desk.heat_bed(*degrees),
            Request::Lines { texts } => self.desk.lines(texts.as_slice()),
            Request::Move { texts } => self.desk.move_by_hand(texts.as_slice()),
            Request::Start => self.start(keeper, &user.name),
            Request::Cancel => self.desk.cancel(),
            Request::Restart => self.restart(keeper, &user.name),
            Request::Backup => self.backup(keeper),
            Request::Pause => self.desk.pause(),
            Request::Resume => self.desk.resume(),
            Request::Toggle => self.desk.toggle(),
            _ => self.edit(keeper, shelf, user, request),
        }
    }

    // Answers a request that changes files or rows.
    fn edit<K: Keeper, S: Shelf>(
        &mut self,
        keeper: &mut K,
        shelf: &mut S,
        user: &UserRow,
        request: &Request,
    ) -> Answer
        requires { is_edit request.now ≡ true }
        ensures done { AnswersOn (S.state shelf.old).files
            (λ files. request_verdict request.now user.now files (known_of self.old))
            result self.old self.new }
        ensures some { is_reading request.now ≡ true → AnswersOnSome
            (λ files. request_verdict request.now user.now files (known_of self.old))
            result self.old self.new }
        ensures granted { is_reading request.now ≡ true → is_denied result ≡ false }
        ensures files { Shelves (S.state shelf.old).files (S.state shelf.new).files
            (λ files. request_verdict request.now user.now files (known_of self.old)) result }
        ensures rest { AskDone (K.state keeper.old) (K.state keeper.new)
            (S.state shelf.old) (S.state shelf.new) result self.old self.new }
    {
        match request {
            Request::SelectFile { name, print: true } => {
                self.print_named(keeper, shelf, &user.name, name)
            }
            Request::SelectFile { name, print: false } => self.select_named(shelf, name),
            Request::DeleteFile { name } => self.delete_file(shelf, name),
            Request::NextEntry => self.print_next(keeper, shelf),
            Request::DropOwn { name } => self.tables.drop_entry(keeper, &user.name, name),
            Request::DropOther { user, name } => self.tables.drop_entry(keeper, user, name),
            _ => self.put_row(keeper, user, request),
        }
    }

    // Adds a user or an entry of the queue, or changes a user.
    fn put_row<K: Keeper>(&mut self, keeper: &mut K, user: &UserRow, request: &Request) -> Answer
        requires { is_row request.now ≡ true }
        ensures done { (files : List ShelfFile) → Answers
            (request_verdict request.now user.now files (known_of self.old)) result
            self.old self.new }
        ensures rest { KeeperDone (K.state keeper.old) (K.state keeper.new)
            result self.old self.new }
    {
        match request {
            Request::PutUser {
                name,
                key,
                groups,
                active,
            } => self
                .tables
                .put_user(keeper, &self.policy, name, key, groups, *active),
            Request::ChangeUser {
                name,
                key,
                groups,
                active,
            } => self
                .tables
                .change_user(keeper, &self.policy, name, key, groups, *active),
            Request::PutEntry {
                name,
                file,
                priority,
                copies,
                material,
            } => {
                let asked = asked_entry(&user.name, name, file, *priority, *copies, material);
                self.put_entry(keeper, &asked)
            }
            _ => unreachable!(),
        }
    }

    // Has the keeper write a copy of the tables.
    fn backup<K: Keeper>(&self, keeper: &mut K) -> Answer
        ensures done { Answers (backup_verdict (known_of self.now)) result self.now self.now }
        ensures saved { result ≡ answer.Accepted → (K.state keeper.new).saved
            ≡ (K.state keeper.old).tables }
        ensures rest { KeeperDone (K.state keeper.old) (K.state keeper.new)
            result self.now self.now }
    {
        match keeper.backup(self.desk.alloc) {
            Ok(()) => Answer::Accepted,
            Err(fault) => answer_of_keeper_fault(fault),
        }
    }

    // Adds an entry to the queue.
    fn put_entry<K: Keeper>(&mut self, keeper: &mut K, asked: &QueueEntry) -> Answer
        requires priority { asked.now.priority ≤ 100 }
        requires whole { IsWholeRow asked.now }
        requires new { asked.now ≡ new_entry asked.now.user asked.now.name asked.now.file
            asked.now.priority asked.now.copies asked.now.material }
        ensures done { Answers (put_entry_verdict asked.now (known_of self.old)) result
            self.old self.new }
        ensures rest { KeeperDone (K.state keeper.old) (K.state keeper.new)
            result self.old self.new }
    {
        if !self.holds(&asked.file) {
            return Answer::NoFile;
        }
        self.tables.put_entry(keeper, asked)
    }
}
