//! The reply that shows the page. `scripts/page` makes this file from `web/index.html`: don't edit it.

// The head of the reply, with the empty line after it.
pub(crate) const PAGE_HEAD: &[u8] = b"HTTP/1.1 200 OK\r\n\
Connection: close\r\n\
Content-Length: 59018\r\n\
Content-Type: text/html; charset=utf-8\r\n\
Content-Security-Policy: default-src 'none'; script-src 'sha256-iNSYpgNnuSzEmU0he1OtTS0O6j7gkrl1cqsXpwzaA7E='; style-src 'sha256-mwE0BJDAeN9wSPzv9wWxhWKkXbHYdRh7plo6JIgIEXc='; connect-src 'self'; img-src data:; base-uri 'none'; form-action 'none'; frame-ancestors 'none'; require-trusted-types-for 'script'; trusted-types 'none'\r\n\
X-Content-Type-Options: nosniff\r\n\
Referrer-Policy: no-referrer\r\n\
Cache-Control: no-cache\r\n\
\r\n\
";

// The whole reply: its head and the page.
pub(crate) const PAGE_REPLY: &[u8] = b"HTTP/1.1 200 OK\r\n\
Connection: close\r\n\
Content-Length: 59018\r\n\
Content-Type: text/html; charset=utf-8\r\n\
Content-Security-Policy: default-src 'none'; script-src 'sha256-iNSYpgNnuSzEmU0he1OtTS0O6j7gkrl1cqsXpwzaA7E='; style-src 'sha256-mwE0BJDAeN9wSPzv9wWxhWKkXbHYdRh7plo6JIgIEXc='; connect-src 'self'; img-src data:; base-uri 'none'; form-action 'none'; frame-ancestors 'none'; require-trusted-types-for 'script'; trusted-types 'none'\r\n\
X-Content-Type-Options: nosniff\r\n\
Referrer-Policy: no-referrer\r\n\
Cache-Control: no-cache\r\n\
\r\n\
<!doctype html>
<html lang=\"en\">
<head>
<meta charset=\"utf-8\">
<meta name=\"viewport\" content=\"width=device-width,initial-scale=1\">
<meta name=\"color-scheme\" content=\"light dark\">
<title>octo</title>
<link rel=\"icon\" href=\"data:image/svg+xml,%3Csvg xmlns='http://www.w3.org/2000/svg' viewBox='0 0 16 16'%3E%3Crect width='16' height='16' rx='3' fill='%230b5cad'/%3E%3Cpath d='M4 4h8v3L9 10v2H7v-2L4 7z' fill='%23fff'/%3E%3C/svg%3E\">
<style>
:root {
  color-scheme: light dark;
  --back: #eef1f4; --card: #fff; --ink: #15191e; --dim: #545d68; --line: #ccd3db; --field: #8a94a0;
  --blue: #0b5cad; --on-blue: #fff; --red: #b3161b; --green: #1a6b3a; --amber: #7d5200;
  --tool: #b3161b; --bed: #0b5cad; --shade: #f4f7fa;
}
@media (prefers-color-scheme: dark) {
  :root {
    --back: #101317; --card: #1a1f25; --ink: #e9ecf0; --dim: #a7b0bb; --line: #343c46; --field: #7b8693;
    --blue: #82bbff; --on-blue: #06121f; --red: #ff8a85; --green: #7fd69b; --amber: #f0be62;
    --tool: #ff8a85; --bed: #82bbff; --shade: #222830;
  }
}
* { box-sizing: border-box; }
[hidden] { display: none !important; }
html { scroll-padding: 7rem 0 6rem; }
body { margin: 0; background: var(--back); color: var(--ink); font: 1rem/1.45 system-ui, sans-serif; padding-bottom: 5rem; }
h1, h2, h3, p { margin: 0; }
h1 { font-size: 1.15rem; }
h2 { font-size: 1.1rem; }
h3 { font-size: 1rem; }
h2:focus { outline: none; }
a { color: var(--blue); }
.dim { color: var(--dim); }
.small { font-size: .875rem; }
.number { font-variant-numeric: tabular-nums; }
.skip { position: absolute; left: -99rem; }
.skip:focus { left: .5rem; top: .5rem; z-index: 9; background: var(--card); padding: .5rem; }
:focus-visible { outline: 3px solid var(--blue); outline-offset: 2px; }

button, input, select { font: inherit; color: inherit; min-height: 2.5rem; border-radius: .4rem; max-width: 100%; }
button { border: 1px solid var(--field); background: var(--shade); padding: .25rem .8rem; cursor: pointer; }
button.main { background: var(--blue); border-color: var(--blue); color: var(--on-blue); }
button.risk { color: var(--red); border-color: var(--red); }
button[aria-disabled=true] { opacity: .55; cursor: not-allowed; }
button[aria-busy=true] { opacity: .55; cursor: progress; }
input, select { border: 1px solid var(--field); background: var(--card); padding: .25rem .5rem; }
input[type=number] { width: 6rem; }
input[type=file] { width: 100%; }
input[type=checkbox] { min-height: 0; width: 1.2rem; height: 1.2rem; vertical-align: -.2rem; }
label { display: inline-flex; gap: .35rem; align-items: center; }
label.check { flex: 1 1 100%; }
label.check input { flex: none; }
label.wide { display: flex; flex-direction: column; align-items: stretch; gap: .15rem; flex: 1 1 8rem; min-width: 0; }
progress { width: 100%; height: 1.1rem; accent-color: var(--blue); }
.row { display: flex; flex-wrap: wrap; gap: .5rem; align-items: center; }
.row.low { align-items: end; }
.grow { flex: 1 1 8rem; min-width: 0; }

header { position: sticky; top: 0; z-index: 5; background: var(--card); border-bottom: 1px solid var(--line); padding: .4rem .8rem; }
header .row { flex-wrap: nowrap; }
.pill { border: 1px solid currentColor; border-radius: 2rem; padding: 0 .7rem; font-weight: 600; white-space: nowrap; }
.pill.good { color: var(--green); }
.pill.busy { color: var(--blue); }
.pill.wait { color: var(--amber); }
.pill.bad { color: var(--red); }
#brief { overflow: hidden; text-overflow: ellipsis; white-space: nowrap; }
#stop { background: #c4161c; border-color: #c4161c; color: #fff; font-weight: 700; min-width: 6rem; min-height: 2.9rem; margin-left: auto; }
nav { display: flex; gap: 1rem; overflow-x: auto; white-space: nowrap; padding: .25rem 2px; scrollbar-width: none; }
nav a { padding: .3rem 0; }
#stopped { flex-wrap: wrap; border: 2px solid #c4161c; border-radius: .5rem; margin: .3rem 0; padding: .4rem .6rem; }
#stopped p { flex-basis: 15rem; }
#lost { position: absolute; left: 0; right: 0; top: 100%; background: #c4161c; color: #fff; padding: .35rem .8rem; }
.stale .live { opacity: .5; }

main { padding: .8rem; display: grid; gap: .8rem; align-items: start; grid-template-columns: repeat(auto-fit, minmax(min(100%, 25rem), 1fr)); max-width: 110rem; margin: auto; }
.column { display: grid; gap: .8rem; grid-template-columns: minmax(0, 1fr); }
section { background: var(--card); border: 1px solid var(--line); border-radius: .6rem; padding: .8rem; display: grid; gap: .7rem; grid-template-columns: minmax(0, 1fr); }
#login { max-width: 30rem; margin: 2rem auto; }
ul, ol { list-style: none; margin: 0; padding: 0; }
.list { max-height: 30rem; overflow: auto; border-top: 1px solid var(--line); }
.list > li { padding: .5rem 0; border-bottom: 1px solid var(--line); display: grid; gap: .35rem; grid-template-columns: minmax(0, 1fr); }
.list .row { gap: .35rem; }
.list button { min-height: 2.4rem; padding: .1rem .5rem; font-size: .9rem; }
.name { font-weight: 600; overflow-wrap: anywhere; }
.tag { border: 1px solid var(--green); color: var(--green); border-radius: .3rem; padding: 0 .35rem; font-size: .8rem; }
table { border-collapse: collapse; width: 100%; }
th, td { text-align: left; padding: .3rem .5rem .3rem 0; border-bottom: 1px solid var(--line); vertical-align: top; }
.scroll { max-height: 24rem; overflow: auto; }
.scroll .name { min-width: 7rem; }
#users-body { display: grid; gap: .7rem; grid-template-columns: minmax(0, 1fr); }
.why { color: var(--amber); }
.why:empty { display: none; }
.Failed { color: var(--red); font-weight: 600; }
.Cancelled { color: var(--amber); }
.Done { color: var(--green); }

.heater { display: flex; flex-wrap: wrap; gap: .3rem .6rem; align-items: center; }
.heater h3 { flex: none; width: 4.6rem; }
.heater p { flex: 1 0 9rem; white-space: nowrap; }
.heater .row { flex-wrap: nowrap; }
.now { font-size: 1.5rem; font-weight: 600; }
.key-tool::before, .key-bed::before { content: \"\"; display: inline-block; width: 1.2rem; border-top: 3px solid var(--tool); vertical-align: .25rem; margin-right: .3rem; }
.key-bed::before { border-top: 3px dashed var(--bed); }
.chart { position: relative; padding-left: 2.6rem; }
.chart svg { display: block; width: 100%; height: 9rem; border: 1px solid var(--line); background: var(--shade); }
.chart span { position: absolute; left: 0; width: 2.3rem; text-align: right; font-size: .75rem; color: var(--dim); }
#high { top: -.4rem; } #middle { top: 4rem; } .zero { top: 8.4rem; }
.chart b { font-weight: 400; }
.chart .times { position: static; display: flex; justify-content: space-between; width: auto; }
path { fill: none; stroke-width: 2; vector-effect: non-scaling-stroke; }
.tool { stroke: var(--tool); } .bed { stroke: var(--bed); stroke-dasharray: 6 3; }
.aim { stroke-width: 1; stroke-dasharray: 1 3; }
.grid { stroke: var(--line); vector-effect: non-scaling-stroke; }

.drop { border: 2px dashed var(--field); border-radius: .5rem; padding: .7rem; display: grid; gap: .5rem; grid-template-columns: minmax(0, 1fr); }
.over .drop { border-color: var(--blue); background: var(--shade); }
.pad { display: grid; grid-template-columns: repeat(4, minmax(3.4rem, 1fr)); gap: .4rem; max-width: 26rem; }
.pad button { padding: .2rem; }

#notices { position: fixed; left: 0; right: 0; bottom: 0; z-index: 6; display: grid; gap: .4rem; padding: .5rem; justify-items: center; pointer-events: none; }
.notice { pointer-events: auto; background: var(--ink); color: var(--card); border-radius: .5rem; padding: .5rem .5rem .5rem .9rem; width: min(44rem, 100%); display: flex; gap: .6rem; align-items: center; border-left: .5rem solid var(--green); overflow-wrap: anywhere; box-shadow: 0 .2rem .8rem #0006; }
.notice.bad { border-color: #e5484d; }
.notice p { flex: 1; min-width: 0; }
.notice button { background: none; border-color: currentColor; }
dialog { border: 1px solid var(--line); border-radius: .6rem; background: var(--card); color: var(--ink); padding: 1rem; max-width: 28rem; width: calc(100% - 2rem); }
dialog::backdrop { background: #000a; }
dialog p { margin: .5rem 0 1rem; overflow-wrap: anywhere; }
summary { cursor: pointer; padding: .3rem 0; }
@media (min-width: 60rem) { #notices { left: auto; width: 30rem; } }
@media (max-width: 30rem) {
  main { padding: .5rem; }
  #brief-heat { display: none; }
  .list button { padding: .1rem .3rem; font-size: .85rem; }
  #prints th:nth-child(4), #prints td:nth-child(4) { display: none; }
}
</style>
</head>
<body>
<a class=\"skip\" href=\"#main\">Skip to the content</a>
<header>
  <div class=\"row\">
    <h1>octo</h1>
    <p id=\"state\" class=\"pill\" role=\"status\" hidden></p>
    <p id=\"brief\" class=\"number live\"><span id=\"brief-percent\"></span> <span id=\"brief-heat\" class=\"dim\"></span></p>
    <button id=\"stop\" type=\"button\" aria-describedby=\"stop-note\" hidden>Stop</button>
  </div>
  <nav id=\"nav\" aria-label=\"Sections\" hidden>
    <a href=\"#job\">Print</a><a href=\"#heat\">Heat</a><a href=\"#files\">Files</a><a href=\"#queue\">Queue</a>
    <a href=\"#prints\">Prints</a><a href=\"#move\">Move</a><a href=\"#users\">Users</a><a href=\"#page\">This page</a>
  </nav>
  <div id=\"stopped\" class=\"row\" role=\"alert\" hidden>
    <p id=\"stopped-text\" class=\"grow\"></p>
    <button id=\"stopped-cancel\" type=\"button\">Cancel the print</button>
    <button id=\"stopped-leave\" type=\"button\">Disconnect</button>
    <button id=\"stopped-close\" type=\"button\">Close</button>
  </div>
  <p id=\"lost\" role=\"alert\" hidden></p>
</header>

<div id=\"login\" hidden>
  <section aria-labelledby=\"login-title\">
    <h2 id=\"login-title\" tabindex=\"-1\">Enter your key</h2>
    <p>The host knows its users by their keys. Whoever runs the host gave you yours: 16 to 64 letters and digits.</p>
    <form id=\"login-form\" class=\"row low\" novalidate>
      <input type=\"text\" name=\"username\" autocomplete=\"username\" value=\"octo\" hidden>
      <label class=\"wide\">Key <input id=\"key\" type=\"password\" autocomplete=\"current-password\" autocapitalize=\"off\" spellcheck=\"false\" maxlength=\"64\" aria-describedby=\"login-note\" required></label>
      <button class=\"main\">Go on</button>
      <label class=\"check\"><input id=\"keep\" type=\"checkbox\"> Keep it on this device. Otherwise it is forgotten with this tab.</label>
    </form>
    <p id=\"login-note\" role=\"alert\"></p>
  </section>
</div>

<main id=\"main\" tabindex=\"-1\" hidden>
<div class=\"column\">
  <section id=\"job\" aria-labelledby=\"job-title\">
    <h2 id=\"job-title\" tabindex=\"-1\">Print</h2>
    <p class=\"live\"><span id=\"hint\"></span> <a id=\"to-files\" href=\"#files\" hidden>To the files</a></p>
    <form id=\"link-form\" class=\"row low\">
      <label class=\"wide\">Port <select id=\"port\"></select></label>
      <button id=\"connect\" class=\"main\">Connect</button>
      <button id=\"disconnect\" type=\"button\">Disconnect</button>
    </form>
    <div class=\"live\">
      <p><span class=\"dim\">File:</span> <span id=\"job-file\" class=\"name\">none selected</span></p>
      <progress id=\"bar\" max=\"100\" value=\"0\" aria-label=\"Progress of the print\"></progress>
      <p class=\"row\"><span id=\"percent\" class=\"number grow\">not printing</span> <span id=\"commands\" class=\"dim small number\"></span></p>
      <p id=\"left\" class=\"dim small number\"></p>
    </div>
    <div class=\"row\">
      <button id=\"start\" class=\"main\" type=\"button\">Print</button>
      <button id=\"pause\" type=\"button\">Pause</button>
      <button id=\"resume\" type=\"button\">Resume</button>
      <button id=\"cancel\" class=\"risk\" type=\"button\">Cancel</button>
      <button id=\"restart\" type=\"button\">Start again</button>
    </div>
    <p id=\"stop-note\" class=\"dim small\"><b>Stop</b>, at the top, sends M112, the emergency stop, and asks nothing. If the printer goes on, use its switch. <b>Cancel</b> ends the print in order.</p>
  </section>

  <section id=\"heat\" aria-labelledby=\"heat-title\">
    <h2 id=\"heat-title\" tabindex=\"-1\">Temperatures</h2>
    <form class=\"heater\" id=\"tool-form\">
      <h3 class=\"key-tool\">Tool</h3>
      <p class=\"number live\"><span id=\"tool-now\" class=\"now\">\xe2\x80\x93</span> <span id=\"tool-aim\" class=\"dim\"></span></p>
      <div class=\"row\">
        <input id=\"tool-set\" type=\"number\" min=\"0\" max=\"500\" step=\"1\" inputmode=\"numeric\" aria-label=\"Target of the tool in \xc2\xb0C\" placeholder=\"\xc2\xb0C\" required>
        <button>Set</button> <button id=\"tool-off\" type=\"button\" aria-label=\"Tool off\">Off</button>
      </div>
    </form>
    <form class=\"heater\" id=\"bed-form\">
      <h3 class=\"key-bed\">Bed</h3>
      <p class=\"number live\"><span id=\"bed-now\" class=\"now\">\xe2\x80\x93</span> <span id=\"bed-aim\" class=\"dim\"></span></p>
      <div class=\"row\">
        <input id=\"bed-set\" type=\"number\" min=\"0\" max=\"200\" step=\"1\" inputmode=\"numeric\" aria-label=\"Target of the bed in \xc2\xb0C\" placeholder=\"\xc2\xb0C\" required>
        <button>Set</button> <button id=\"bed-off\" type=\"button\" aria-label=\"Bed off\">Off</button>
      </div>
    </form>
    <div class=\"chart\">
      <svg id=\"chart\" viewBox=\"0 0 600 100\" preserveAspectRatio=\"none\" role=\"img\" aria-label=\"No temperatures yet\">
        <line class=\"grid\" x1=\"0\" x2=\"600\" y1=\"50\" y2=\"50\"/>
        <path id=\"tool-aims\" class=\"tool aim\"/><path id=\"bed-aims\" class=\"bed aim\"/>
        <path id=\"bed-line\" class=\"bed\"/><path id=\"tool-line\" class=\"tool\"/>
      </svg>
      <span id=\"high\" aria-hidden=\"true\">100\xc2\xb0</span><span id=\"middle\" aria-hidden=\"true\">50\xc2\xb0</span><span class=\"zero\" aria-hidden=\"true\">0\xc2\xb0</span>
      <span class=\"times\" aria-hidden=\"true\"><b>10 min ago</b><b>now</b></span>
    </div>
  </section>
</div>

<div class=\"column\">
  <section id=\"files\" aria-labelledby=\"files-title\">
    <h2 id=\"files-title\" tabindex=\"-1\">Files</h2>
    <div class=\"drop\">
      <form id=\"upload-form\" class=\"row low\">
        <label class=\"wide\">Upload G-code (or drop it anywhere) <input id=\"upload-file\" type=\"file\" accept=\".gcode,.gco,.g\" multiple></label>
        <button id=\"upload\" class=\"main\">Upload</button>
        <label class=\"check\"><input id=\"upload-print\" type=\"checkbox\"> Print it at once (the bed is empty)</label>
      </form>
      <div id=\"sending\" hidden>
        <p id=\"sending-text\" class=\"small number\"></p>
        <div class=\"row\"><progress id=\"sending-bar\" class=\"grow\" max=\"100\" value=\"0\" aria-label=\"Progress of the upload\"></progress>
        <button id=\"sending-stop\" type=\"button\">Stop the upload</button></div>
      </div>
    </div>
    <label id=\"find-label\" class=\"wide\" hidden>Find a file <input id=\"find\" type=\"search\" autocomplete=\"off\"></label>
    <p id=\"files-note\" class=\"dim\"></p>
    <ul id=\"files-list\" class=\"list\" hidden></ul>
  </section>

  <section id=\"queue\" aria-labelledby=\"queue-title\">
    <h2 id=\"queue-title\" tabindex=\"-1\">Queue</h2>
    <form id=\"queue-form\" class=\"row low\">
      <label class=\"wide\">File <input id=\"queue-file\" list=\"file-names\" maxlength=\"100\" autocomplete=\"off\" required></label>
      <datalist id=\"file-names\"></datalist>
      <label class=\"wide\">Material <input id=\"queue-material\" maxlength=\"100\" pattern=\"[A-Za-z0-9._+\\-\\(\\)]+\" title=\"Letters, digits and . _ - ( ) +\" value=\"any\" autocomplete=\"off\" required></label>
      <label>Copies <input id=\"queue-copies\" type=\"number\" min=\"1\" max=\"100\" value=\"1\" required></label>
      <label>Priority <input id=\"queue-priority\" type=\"number\" min=\"0\" max=\"100\" value=\"0\" required></label>
      <button id=\"queue-add\">Add to the queue</button>
    </form>
    <div class=\"row\"><button id=\"next\" class=\"main\" type=\"button\">Print the next one</button></div>
    <p id=\"queue-note\" class=\"dim\"></p>
    <ol id=\"queue-list\" class=\"list\" hidden></ol>
  </section>
</div>

<div class=\"column\">
  <section id=\"prints\" aria-labelledby=\"prints-title\">
    <h2 id=\"prints-title\" tabindex=\"-1\">Prints</h2>
    <p id=\"prints-note\" class=\"dim\"></p>
    <div class=\"scroll\" tabindex=\"0\" role=\"region\" aria-label=\"Table of prints\" id=\"prints-box\" hidden>
      <table><thead><tr><th scope=\"col\">No.</th><th scope=\"col\">File</th><th scope=\"col\">Outcome</th><th scope=\"col\">Commands</th><th scope=\"col\">User</th></tr></thead>
      <tbody id=\"prints-list\"></tbody></table>
    </div>
  </section>

  <section id=\"move\" aria-labelledby=\"move-title\">
    <h2 id=\"move-title\" tabindex=\"-1\">Move and command</h2>
    <label>Step <select id=\"step\"><option value=\"0.1\">0.1 mm</option><option value=\"1\">1 mm</option><option value=\"10\" selected>10 mm</option><option value=\"50\">50 mm</option></select></label>
    <div class=\"pad\" id=\"pad\"></div>
    <form id=\"line-form\" class=\"row low\">
      <label class=\"wide\">Command <input id=\"line\" maxlength=\"79\" autocomplete=\"off\" autocapitalize=\"characters\" spellcheck=\"false\" placeholder=\"G28\" required></label>
      <button>Send</button>
    </form>
    <p class=\"dim small\">The host doesn't pass on what the printer replies. During a print the line comes between those of the file.</p>
  </section>

  <section id=\"users\" aria-labelledby=\"users-title\">
    <h2 id=\"users-title\" tabindex=\"-1\">Users</h2>
    <p id=\"users-note\" class=\"dim\"></p>
    <div id=\"users-body\" hidden>
      <ul id=\"users-list\" class=\"list\"></ul>
      <form id=\"user-form\" class=\"row low\">
        <label class=\"wide\">Name <input id=\"user-name\" maxlength=\"100\" pattern=\"[A-Za-z0-9._+\\-\\(\\)]+\" title=\"Letters, digits and . _ - ( ) +\" autocomplete=\"off\" required></label>
        <label class=\"wide\">Groups <input id=\"user-groups\" value=\"users\" autocomplete=\"off\" aria-describedby=\"groups-note\"></label>
        <button>Add the user</button>
      </form>
      <p id=\"groups-note\" class=\"dim small\">users, readonly, guests, admins, or groups of the settings; several with commas between them.</p>
      <div id=\"new-key\" hidden>
        <label class=\"wide\"><span id=\"new-key-text\"></span> <input id=\"new-key-value\" readonly></label>
        <button id=\"new-key-done\" type=\"button\">I have it</button>
      </div>
    </div>
  </section>

  <section id=\"page\" aria-labelledby=\"page-title\">
    <h2 id=\"page-title\" tabindex=\"-1\">This page</h2>
    <p id=\"version\" class=\"dim small\"></p>
    <div class=\"row\"><button id=\"forget\" type=\"button\">Forget my key</button></div>
    <details><summary>Messages</summary><ul id=\"messages\" class=\"list small\"></ul></details>
  </section>
</div>
</main>

<div id=\"notices\" aria-live=\"polite\"></div>
<dialog id=\"sure\" aria-labelledby=\"sure-title\" aria-describedby=\"sure-text\">
  <h2 id=\"sure-title\"></h2>
  <p id=\"sure-text\"></p>
  <form method=\"dialog\" class=\"row\"><button id=\"sure-no\" value=\"no\" autofocus>No</button> <button id=\"sure-yes\" class=\"risk\" value=\"yes\">Yes</button></form>
</dialog>

<script>
'use strict';
// What comes from the host is put in as text only.
const $ = (id) => document.getElementById(id);
const put = (node, text) => { if (node.textContent !== text) node.textContent = text; };
const show = (node, on) => { if (node.hidden === on) node.hidden = !on; };
const make = (tag, name, text) => {
  const node = document.createElement(tag);
  if (name) node.className = name;
  if (text) node.textContent = text;
  return node;
};
const size = (n) => n < 1000 ? n + ' bytes' : n < 1e6 ? (n / 1e3).toFixed(1) + ' kB' : (n / 1e6).toFixed(1) + ' MB';
const span = (s) => s < 90 ? Math.round(s) + ' s' : s < 5400 ? Math.round(s / 60) + ' min' : Math.floor(s / 3600) + ' h ' + Math.round(s % 3600 / 60) + ' min';
const clock = () => new Date().toTimeString().slice(0, 8);
const part = encodeURIComponent;

// What the page knows.
let key = '';
let state = '';
let since = 0;
let lost = false;
let denied = {};
let files = null;
let entries = null;
let selected = null;
let samples = [];
let unprinted = {};
let pace = null;
let job = null;
let prints = null;

// ---- The key: in this tab, or on this device.
const store = (where, value) => {
  try {
    if (value) where().setItem('octo-key', value); else where().removeItem('octo-key');
  } catch { /* The browser keeps nothing. */ }
};
const stored = (where) => { try { return where().getItem('octo-key') || ''; } catch { return ''; } };
const tab = () => sessionStorage;
const device = () => localStorage;

// ---- Messages.
// A control's next use takes away what its last one said.
const hush = (control) => { for (const box of [...$('notices').children]) if (box.of === control) box.remove(); };
function say(text, bad, of) {
  const item = make('li', bad ? 'Failed' : '', clock() + '  ' + text);
  $('messages').prepend(item);
  if ($('messages').childElementCount > 50) $('messages').lastElementChild.remove();
  const box = make('div', bad ? 'notice bad' : 'notice');
  box.of = of;
  if (bad) box.setAttribute('role', 'alert');
  const close = make('button', '', 'Close');
  close.type = 'button';
  close.onclick = () => box.remove();
  box.append(make('p', '', text), close);
  const all = $('notices');
  for (const old of [...all.children]) if (old.firstChild.textContent === text) old.remove();
  while (all.childElementCount > 2) all.firstElementChild.remove();
  all.append(box);
  if (!bad) setTimeout(() => { if (!box.contains(document.activeElement)) box.remove(); }, 6000);
}

// ---- Refusals as sentences.
const HINT = {
  Offline: 'Not connected, so nothing is printed. Choose the port and connect.',
  Connecting: 'Connecting: waiting for the printer\\'s first answer.',
  Operational: 'Ready. Upload a file under Files, or choose one there, and print it.',
  Printing: 'Printing.',
  Pausing: 'Pausing: the lines that were sent are still carried out.',
  Paused: 'Paused.',
  Cancelling: 'Cancelling: the lines that were sent are still carried out.',
  Finishing: 'Finishing: the whole file was sent; the printer carries out its last lines.',
  Closing: 'Disconnecting: waiting for the printer\\'s last answers.',
  Error: 'The connection failed. Look at the printer and its port, and connect again.',
};
const SLOW = {
  Connecting: ' It takes long. If the printer was just starting, disconnect, wait for Offline, and connect again.',
  Closing: ' It takes long. Disconnect once more to hang up. If it doesn\\'t end, switch the printer off.',
  Cancelling: ' It takes long. If the printer stands still, switch it off.',
};
const first = (at) => at === 'Offline' || at === 'Error' ? ' Connect it first.' : at === 'Paused' ? ' Resume or cancel that print first.' : '';
const BARE = {
  400: 'The host couldn\\'t use what was sent.', 404: 'The host doesn\\'t have this.', 405: 'The host doesn\\'t do this here.',
  408: 'The host waited too long for the rest of the request.', 413: 'It is too large: a file has at most 64 MiB.',
  415: 'A file\\'s name must end in .gcode, .gco or .g.', 431: 'The request is too large.', 507: 'The host is out of memory. Try again later.',
};
function sentence(status, r) {
  switch (r && r.error) {
    case 'Denied': return r.permission === 'KEY' ? 'Not allowed: the host doesn\\'t know this key, or its user isn\\'t active.' : 'Not allowed: your key lacks the permission ' + r.permission + '.';
    case 'WrongState': return 'Not possible while the printer is ' + r.state + '.' + first(r.state);
    case 'BadPort': return 'The settings have no such port.';
    case 'BadCommand': return 'That isn\\'t one command of at most 79 bytes, or it has M110.';
    case 'BadGroup': return 'There is no group ' + r.group + '.';
    case 'BadFile': return r.fault === 'TooLarge' ? 'The file is too large: ' + size(r.bytes) + ', and at most 64 MiB are taken.'
      : r.fault === 'TooLong' ? 'Line ' + r.line + ' of the file has a command of over 79 bytes.'
      : 'Line ' + r.line + ' of the file has a byte that no command may have.';
    case 'TooHot': return r.asked + ' \xc2\xb0C is above the limit of ' + r.limit + ' \xc2\xb0C.';
    case 'TooHotLine': return 'Line ' + r.line + ' of the file asks for ' + r.asked + ' \xc2\xb0C, and the limit is ' + r.limit + ' \xc2\xb0C.';
    case 'NoFile': return 'The file isn\\'t there any more. Upload it again.';
    case 'NoUser': return 'There is no such user.';
    case 'NoEntry': return 'No entry of the queue fits.';
    case 'NoneSelected': return 'No file is selected.';
    case 'FileBusy': return 'This file is being printed.';
    case 'NameTaken': return r.kept ? 'You have an entry of this name with other values.' : 'A user has this name.';
    case 'KeyTaken': return 'The user ' + r.name + ' has this key.';
    case 'Full': return 'The limit is reached: there are ' + r.count + ' already.';
    case 'ArrivalsUsed': return 'The queue takes no more entries.';
    case 'KeeperFault': return 'The host\\'s database failed.';
    case 'ShelfFault': return 'The host\\'s folder of files failed.';
    case 'Closed': return 'The host is being shut down.';
    case 'NoMemory': return BARE[507];
  }
  if (r && r.reason) return 'The host refused it: ' + r.reason + '.';
  return r && r.error ? 'The host refused it: ' + r.error + '.' : BARE[status] || 'The host replied with status ' + status + '.';
}

// ---- Requests.
async function ask(method, path, body, wait) {
  const stop = new AbortController();
  const timer = setTimeout(() => stop.abort(), wait || 15000);
  try {
    const options = { method, headers: { 'X-Api-Key': key }, cache: 'no-store', credentials: 'omit', signal: stop.signal };
    if (body) {
      options.headers['Content-Type'] = 'application/json';
      options.body = JSON.stringify(body);
    }
    const reply = await fetch(path, options);
    const text = await reply.text();
    let data = null;
    try { data = JSON.parse(text); } catch { /* No JSON, no data. */ }
    if (reply.status === 403 && data && data.permission === 'KEY') out(sentence(403, data));
    return { ok: reply.ok, status: reply.status, data };
  } finally { clearTimeout(timer); }
}

// Remembers what this key may not do, until it may.
function learn(need, reply) {
  const no = reply.status === 403 && reply.data && reply.data.permission;
  if (no && !denied[no]) { denied[no] = true; mark(); }
  if (reply.ok && need && denied[need]) { delete denied[need]; mark(); }
}

// Does what a control asks, once at a time. Returns the reply, or null if it was refused.
async function act(control, method, path, body, done) {
  if (control.getAttribute('aria-busy') === 'true') return null;
  control.setAttribute('aria-busy', 'true');
  hush(control);
  try {
    const reply = await ask(method, path, body);
    learn(control.need, reply);
    if (!reply.ok) { if (key) say(sentence(reply.status, reply.data), true, control); return null; }
    if (done) say(done, false, control);
    return reply;
  } catch {
    say('No answer from the host. It may still have done this: look before you repeat it.', true, control);
    return null;
  } finally {
    control.removeAttribute('aria-busy');
    wake();
  }
}

// Asks before something that can't be undone. The safe choice has the focus.
function sure(title, text, yes, no) {
  const box = $('sure');
  put($('sure-title'), title);
  put($('sure-text'), text);
  put($('sure-yes'), yes);
  put($('sure-no'), no || 'No');
  box.returnValue = 'no';
  box.showModal();
  return new Promise((tell) => { box.onclose = () => tell(box.returnValue === 'yes'); });
}

// ---- Which controls are possible now.
const LINKED = ['Operational', 'Printing', 'Pausing', 'Paused', 'Cancelling', 'Finishing'];
const RUNS = ['Printing', 'Pausing', 'Paused'];
const IDLE = ['Offline', 'Connecting', 'Operational', 'Error'];
const FREE = ['Offline', 'Error'];
const controls = new Set();
function rule(control, need, states) {
  control.need = need;
  control.states = states;
  controls.add(control);
  mark1(control);
  return control;
}
function wrong(control) {
  const states = control.states;
  // A state that this key may not see is no reason.
  if (!state || !states || states.includes(state)) return '';
  if (states === FREE && LINKED.includes(state)) return 'The printer is connected already.';
  if (IDLE.includes(state) && RUNS.includes(states[0])) return 'No print is going on.';
  return 'Not possible while the printer is ' + state + '.' + first(state);
}
function mark1(control) {
  const why = wrong(control) || (denied[control.need] ? 'Not allowed: your key lacks the permission ' + control.need + '.' : '');
  if (control.title !== why) control.title = why;
  const off = why ? 'true' : 'false';
  if (control.getAttribute('aria-disabled') !== off) control.setAttribute('aria-disabled', off);
}
function mark() {
  for (const control of controls) {
    if (control.isConnected) mark1(control); else controls.delete(control);
  }
}
// A click says why it isn't possible. Something that wasn't allowed is tried again, as it may be allowed by now.
function on(control, need, states, run) {
  rule(control, need, states);
  const go = (event) => {
    event.preventDefault();
    const why = wrong(control);
    hush(control);
    if (why) say(why, true, control); else run(control);
  };
  if (control.form && control.type === 'submit') control.form.onsubmit = go; else control.onclick = go;
}
const submit = (form) => $(form).querySelector('button:not([type=button])');

// ---- The printer and its print.
const MOOD = { Operational: 'good', Printing: 'busy', Paused: 'wait', Error: 'bad', Offline: '' };
function seeState(now) {
  if (now !== state) {
    const before = state;
    state = now;
    since = Date.now();
    $('state').className = 'pill ' + (now in MOOD ? MOOD[now] : 'wait');
    put($('state'), now);
    mark();
    seeStopped();
    due.prints = due.connection = 0;
    if (before && now === 'Error' && !stopped) say('The connection to the printer failed.', true);
  }
  const long = Date.now() - since > 20000 && SLOW[now];
  put($('hint'), (HINT[now] || '') + (long || ''));
  show($('to-files'), now === 'Operational');
}

function seeJob(data) {
  job = data;
  seeState(data.state);
  const file = data.job.file;
  if (RUNS.includes(data.state) && unprinted[file.name]) unprint(file.name, '');
  if (file.name !== selected) { selected = file.name; seeFiles(); }
  put($('job-file'), file.name || 'none selected');
  const pos = data.progress.filepos;
  const percent = data.progress.completion;
  const goes = percent !== null;
  const bar = $('bar');
  // After a print the bar shows how it ended, as far as this user may see its record.
  const record = prints && prints[0] && prints[0].file === file.name ? prints[0] : null;
  const ended = !goes && record && record.outcome !== 'Active' ? record.outcome : '';
  const full = goes ? percent : ended === 'Done' ? 100 : 0;
  if (bar.value !== full) bar.value = full;
  put($('percent'), goes ? percent + ' % of the file\\'s commands sent' : ended ? ended + ' (print ' + record.number + ')' : 'not printing');
  put($('commands'), record ? record.commands + ' commands' : '');
  seePace(data.state, file, pos, goes);
  put($('brief-percent'), goes ? percent + ' %' : '');
  document.title = (goes ? percent + ' % ' : '') + data.state + ' \xc2\xb7 octo at ' + location.host;
}

// The pace of what this page has seen itself, without pauses.
function seePace(now, file, pos, goes) {
  const t = Date.now() / 1000;
  if (!goes || !pace || pace.file !== file.name || pos < pace.pos) {
    pace = goes ? { file: file.name, pos, t, bytes: 0, seconds: 0, ran: now === 'Printing' } : null;
  } else {
    if (pace.ran && now === 'Printing' && t - pace.t < 10) { pace.bytes += pos - pace.pos; pace.seconds += t - pace.t; }
    pace.pos = pos;
    pace.t = t;
    pace.ran = now === 'Printing';
  }
  let text = '';
  if (goes && file.size) {
    text = size(pos) + ' of ' + size(file.size) + '. ';
    if (pace.seconds > 20 && pace.bytes > file.size / 200) {
      text += 'About ' + span((file.size - pos) * pace.seconds / pace.bytes) + ' left, if it goes on as in the last ' + span(pace.seconds) + '.';
    } else if (now === 'Printing') {
      text += 'Time left: not known yet.';
    }
  }
  put($('left'), text);
}

function seePrinter(data) {
  const heat = (data && data.temperature) || {};
  const now = { t: Date.now() };
  for (const [id, name] of [['tool', 'tool0'], ['bed', 'bed']]) {
    const h = heat[name];
    put($(id + '-now'), h ? Math.round(h.actual) + ' \xc2\xb0C' : '\xe2\x80\x93');
    put($(id + '-aim'), h ? (h.target ? 'to ' + h.target + ' \xc2\xb0C' : 'off') : '');
    if (h) { now[id] = h.actual; now[id + 'Aim'] = h.target; }
  }
  if (heat.tool0 || heat.bed) samples.push(now);
  while (samples.length && samples[0].t < now.t - 600000) samples.shift();
  put($('brief-heat'), heat.tool0 ? now.tool + '/' + now.toolAim + (heat.bed ? ' \xc2\xb7 ' + now.bed + '/' + now.bedAim : '') + ' \xc2\xb0C' : '');
  seeCurve(now.t);
}

let told = 0;
function seeCurve(t) {
  let top = 50;
  for (const s of samples) top = Math.max(top, s.tool || 0, s.toolAim || 0, s.bed || 0, s.bedAim || 0);
  top = Math.ceil((top + 5) / 50) * 50;
  put($('high'), top + '\xc2\xb0');
  put($('middle'), top / 2 + '\xc2\xb0');
  for (const [id, name] of [['tool-line', 'tool'], ['tool-aims', 'toolAim'], ['bed-line', 'bed'], ['bed-aims', 'bedAim']]) {
    // A gap of over five seconds stays a gap.
    let path = '';
    let last = 0;
    for (const s of samples) {
      if (!(name in s)) continue;
      path += (s.t - last > 5000 ? 'M' : 'L') + (600 - (t - s.t) / 1000).toFixed(1) + ' ' + (100 - Math.max(0, s[name]) * 100 / top).toFixed(1);
      last = s.t;
    }
    $(id).setAttribute('d', path);
  }
  if (t - told > 30000 && samples.length) {
    told = t;
    const range = (name) => {
      const all = samples.filter((s) => name in s).map((s) => s[name]);
      return all.length ? Math.min(...all) + ' to ' + Math.max(...all) + ' \xc2\xb0C' : 'not reported';
    };
    $('chart').setAttribute('aria-label', 'Temperatures of the last ten minutes. Tool ' + range('tool') + ', bed ' + range('bed') + '.');
  }
}

function seePorts(data) {
  const list = $('port');
  const ports = data.options.ports;
  if ([...list.options].map((o) => o.value).join('\\n') !== ports.join('\\n')) {
    const was = list.value;
    list.replaceChildren(...ports.map((p) => { const o = make('option', '', p); o.value = p; return o; }));
    if (ports.includes(was)) list.value = was;
  }
  if (data.current.port && document.activeElement !== list) list.value = data.current.port;
}

on($('connect'), 'CONNECTION', FREE, (b) => act(b, 'POST', '/api/connection', $('port').value ? { command: 'connect', port: $('port').value } : { command: 'connect' }));
on($('disconnect'), 'CONNECTION', [...LINKED, 'Connecting', 'Closing'], async (b) => {
  const busy = RUNS.includes(state) || state === 'Cancelling' || state === 'Finishing';
  if (busy && !await sure('Disconnect?', 'This ends the print. The heaters may stay on.', 'Disconnect', 'Keep printing')) return;
  // A second one doesn't wait for the printer.
  if (state === 'Closing' && !await sure('Hang up now?', 'The rest of the last script isn\\'t sent. The heaters may stay on.', 'Hang up', 'Wait')) return;
  act(b, 'POST', '/api/connection', { command: 'disconnect' });
});
on($('start'), 'PRINT', ['Operational'], async (b) => {
  if (!selected) { say('No file is selected. Choose one under Files.', true); return; }
  if (await sure('Print ' + selected + '?', 'Make sure that the bed is empty.', 'Print')) act(b, 'POST', '/api/job', { command: 'start' });
});
on($('pause'), 'PRINT', ['Printing'], (b) => act(b, 'POST', '/api/job', { command: 'pause', action: 'pause' }));
on($('resume'), 'PRINT', ['Paused'], (b) => act(b, 'POST', '/api/job', { command: 'pause', action: 'resume' }));
on($('cancel'), 'PRINT', RUNS, async (b) => {
  if (await sure('Cancel the print?', (selected || 'The file') + ' can\\'t be taken up again where it was.', 'Cancel the print', 'Go on printing')) act(b, 'POST', '/api/job', { command: 'cancel' });
});
on($('restart'), 'PRINT', ['Paused'], async (b) => {
  if (await sure('Start the print again?', 'The file begins from its first line, and the printer may home at once. Empty the bed first.', 'Start again')) act(b, 'POST', '/api/job', { command: 'restart' });
});
$('stop').need = 'CONTROL';
$('stop').onclick = async () => {
  if (await act($('stop'), 'POST', '/api/printer/command', { command: 'M112' })) {
    stopped = clock();
    hungUp = false;
    seeStopped();
  } else if (key) say('The printer wasn\\'t stopped from here: use its switch.', true);
};

// What came of a stop is in sight until it is closed, or until the printer is connected again. The state shows whether the host
// has hung up.
let stopped = '';
let hungUp = false;
function seeStopped() {
  if (FREE.includes(state)) hungUp = true;
  if (hungUp && state === 'Operational') stopped = '';
  const linked = LINKED.includes(state);
  const runs = RUNS.includes(state);
  if (stopped) {
    put($('stopped-text'), 'Stop at ' + stopped + ': ' + (linked || state === 'Closing'
      ? 'M112 is handed over, and the host closes the connection. If the printer goes on, use its switch.'
      : 'M112 was sent, and the connection has ended. If the printer still moves or heats, use its switch. If it has halted, restart it, then connect.'));
  }
  show($('stopped'), stopped !== '');
  show($('stopped-cancel'), runs);
  show($('stopped-leave'), linked || state === 'Closing');
}
$('stopped-cancel').need = 'PRINT';
$('stopped-cancel').onclick = () => act($('stopped-cancel'), 'POST', '/api/job', { command: 'cancel' });
$('stopped-leave').need = 'CONNECTION';
$('stopped-leave').onclick = () => act($('stopped-leave'), 'POST', '/api/connection', { command: 'disconnect' });
$('stopped-close').onclick = () => { stopped = ''; seeStopped(); $('stop').focus(); };

for (const [id, path, body] of [
  ['tool', '/api/printer/tool', (t) => ({ command: 'target', targets: { tool0: t } })],
  ['bed', '/api/printer/bed', (t) => ({ command: 'target', target: t })],
]) {
  on(submit(id + '-form'), 'CONTROL', LINKED, async (b) => {
    const field = $(id + '-set');
    const wanted = field.value;
    if (await act(b, 'POST', path, body(Number(wanted))) && field.value === wanted) field.value = '';
  });
  on($(id + '-off'), 'CONTROL', LINKED, (b) => act(b, 'POST', path, body(0)));
}

// ---- Lists. A row is kept as long as its item is there, so focus and place stay.
function rows(parent, items, name, build, fill) {
  const old = new Map([...parent.children].map((node) => [node.key, node]));
  const kept = new Set(items.map(name));
  for (const [k, node] of old) {
    if (kept.has(k)) continue;
    const held = node.contains(document.activeElement);
    const next = node.nextElementSibling || node.previousElementSibling;
    node.remove();
    if (held) ((next && next.querySelector('button')) || parent.closest('section').querySelector('h2')).focus();
  }
  let at = parent.firstElementChild;
  for (const item of items) {
    let node = old.get(name(item));
    if (!node) { node = build(item); node.key = name(item); }
    if (node === at) at = at.nextElementSibling; else parent.insertBefore(node, at);
    fill(node, item);
  }
}
function button(text, label, need, states, run, style) {
  const b = make('button', style, text);
  b.type = 'button';
  b.setAttribute('aria-label', label);
  on(b, need, states, run);
  return b;
}

// ---- Files.
function seeFiles() {
  if (!files) return;
  show($('find-label'), files.length > 8);
  const wanted = $('find').value.trim().toLowerCase();
  const some = files.filter((f) => f.name.toLowerCase().includes(wanted));
  put($('files-note'), files.length === 0 ? 'No files yet.' : some.length === 0 ? 'No file has this in its name.' : '');
  show($('files-list'), some.length > 0);
  rows($('files-list'), some, (f) => f.name, (f) => {
    const row = make('li');
    const title = make('p');
    title.append(make('span', 'name', f.name), ' ', make('span', 'dim small number'), ' ', make('span', 'tag', 'selected'));
    const does = make('div', 'row');
    const url = '/api/files/local/' + part(f.name);
    does.append(
      button('Print', 'Print ' + f.name, 'PRINT', ['Operational'], async (b) => {
        if (await sure('Print ' + f.name + '?', 'Make sure that the bed is empty.', 'Print')) act(b, 'POST', url, { command: 'select', print: true });
      }),
      button('Select', 'Select ' + f.name, 'FILES_SELECT', IDLE, (b) => act(b, 'POST', url, { command: 'select', print: false })),
      button('Queue', 'Put ' + f.name + ' into the queue', 'FILES_SELECT', null, () => {
        $('queue-file').value = f.name;
        $('queue-copies').focus();
      }),
      button('Download', 'Download ' + f.name, 'FILES_DOWNLOAD', null, (b) => download(b, f.name)),
      button('Delete', 'Delete ' + f.name, 'FILES_DELETE', null, async (b) => {
        if (await sure('Delete ' + f.name + '?', 'The host keeps no copy.', 'Delete')) {
          if (await act(b, 'DELETE', url, null, f.name + ' is deleted.')) { due.files = 0; wake(); }
        }
      }, 'risk'),
    );
    row.append(title, make('p', 'why small'), does);
    return row;
  }, (row, f) => {
    put(row.querySelector('.small'), size(f.size));
    put(row.querySelector('.why'), unprinted[f.name] ? 'Not printed after its upload. ' + unprinted[f.name] : '');
    show(row.querySelector('.tag'), f.name === selected);
  });
}
$('find').oninput = seeFiles;

// The key goes in the head of the request, so a plain link can't do this.
async function download(b, name) {
  if (b.getAttribute('aria-busy') === 'true') return;
  b.setAttribute('aria-busy', 'true');
  try {
    const reply = await fetch('/downloads/files/local/' + part(name), { headers: { 'X-Api-Key': key }, cache: 'no-store' });
    if (!reply.ok) {
      let data = null;
      try { data = await reply.json(); } catch { /* No reason is given. */ }
      learn('FILES_DOWNLOAD', { ok: false, status: reply.status, data });
      say(sentence(reply.status, data), true);
      return;
    }
    const link = make('a');
    link.href = URL.createObjectURL(await reply.blob());
    link.download = name;
    link.click();
    setTimeout(() => URL.revokeObjectURL(link.href), 60000);
  } catch {
    say('The download of ' + name + ' failed.', true);
  } finally { b.removeAttribute('aria-busy'); }
}

// ---- Uploads, one after the other.
let sending = null;
const waiting = [];
function enqueue(list, print) {
  for (const file of list) {
    if (!/\\.(gcode|gco|g)$/i.test(file.name)) say(file.name + ' wasn\\'t sent: ' + BARE[415], true);
    else if (file.size > 67108864) say(file.name + ' wasn\\'t sent: it has ' + size(file.size) + ', and a file has at most 64 MiB.', true);
    else waiting.push({ file, print: print && list.length === 1 });
  }
  if (print && list.length > 1) say('Several files are only stored. Choose one of them to print.');
  sendNext();
}
function sendNext() {
  if (sending || !waiting.length) return;
  const { file, print } = waiting.shift();
  const form = new FormData();
  if (print) form.append('print', 'true');
  form.append('file', file, file.name);
  const call = sending = new XMLHttpRequest();
  let sent = false;
  const seen = (percent) => {
    $('sending-bar').value = percent;
    put($('sending-text'), percent < 100 ? 'Sending ' + file.name + ': ' + percent + ' % of ' + size(file.size) : 'The host stores ' + file.name + '.');
  };
  show($('sending'), true);
  seen(0);
  call.upload.onprogress = (e) => { if (e.lengthComputable) seen(Math.floor(e.loaded * 100 / e.total)); };
  call.upload.onload = () => { sent = true; seen(100); };
  call.onloadend = () => {
    sending = null;
    if (!waiting.length) show($('sending'), false);
    let data = null;
    try { data = JSON.parse(call.responseText); } catch { /* No reason is given. */ }
    if (call.status === 201 && data && data.files) uploaded(data, print);
    else if (call.status) {
      learn('FILES_UPLOAD', { ok: false, status: call.status, data });
      const kept = data && data.done ? ' is stored, but not printed: ' : ' wasn\\'t stored: ';
      say(file.name + kept + sentence(call.status, data), true);
    } else if (call.stopped) say('The upload of ' + file.name + ' was stopped.' + (sent ? ' The host may have stored it.' : ''), true);
    else say('The upload of ' + file.name + ' failed: the host doesn\\'t answer.', true);
    due.files = 0;
    wake();
    sendNext();
  };
  call.open('POST', '/api/files/local');
  call.setRequestHeader('X-Api-Key', key);
  call.send(form);
}
$('sending-stop').onclick = () => { if (sending) { sending.stopped = true; sending.abort(); } };

// Why a file isn't printed after its upload stays beside it until it is printed or uploaded anew.
function unprint(name, why) {
  unprinted[name] = why;
  hush(name);
  seeFiles();
}
// Says what became of an upload: the reply alone doesn't say why it isn't printed.
async function uploaded(data, print) {
  const name = data.files.local.name;
  unprint(name, '');
  if (!print) { say(name + ' is stored.'); return; }
  if (data.effectivePrint) { say(name + ' is stored, and it is being printed.'); return; }
  const not = (why) => {
    unprint(name, why);
    say(name + ' is stored, but not printed. ' + why, true, name);
  };
  if (data.printRefused) { not(sentence(409, data.printRefused)); return; }
  if (state !== 'Operational') { not(sentence(409, { error: 'WrongState', state })); return; }
  // Asked once more, the host says why.
  try {
    const reply = await ask('POST', '/api/files/local/' + part(name), { command: 'select', print: true });
    learn('PRINT', reply);
    if (reply.ok) say(name + ' is stored, and it is being printed.'); else not(sentence(reply.status, reply.data));
  } catch { not('The host doesn\\'t answer.'); }
}
on($('upload'), 'FILES_UPLOAD', null, () => {
  const field = $('upload-file');
  if (!field.files.length) { say('Choose a file first.', true); field.focus(); return; }
  enqueue([...field.files], $('upload-print').checked);
  field.value = '';
});
let inside = 0;
const over = (n) => { inside = Math.max(0, n); document.body.classList.toggle('over', inside > 0); };
const carries = (e) => key && e.dataTransfer && [...e.dataTransfer.types].includes('Files');
document.addEventListener('dragenter', (e) => { if (carries(e)) over(inside + 1); });
document.addEventListener('dragleave', (e) => { if (carries(e)) over(inside - 1); });
document.addEventListener('dragover', (e) => e.preventDefault());
document.addEventListener('drop', (e) => {
  e.preventDefault();
  over(0);
  if (carries(e)) enqueue([...e.dataTransfer.files], $('upload-print').checked);
});

// ---- The queue.
let admin = false;
function seeQueue() {
  if (!entries) return;
  put($('queue-note'), entries.length ? '' : 'The queue is empty.');
  show($('queue-list'), entries.length > 0);
  rows($('queue-list'), entries, (e) => e.user + '/' + e.name, (e) => {
    const row = make('li');
    const title = make('p');
    title.append(make('span', 'name', e.file), ' ', make('span', 'dim small number'));
    const url = '/api/queue/' + (admin ? part(e.user) + '/' : '') + part(e.name);
    const does = make('div', 'row');
    does.append(button('Drop', 'Drop ' + e.file + ' (' + e.name + ') from the queue', 'FILES_SELECT', null, async (b) => {
      if (await sure('Drop ' + e.file + ' from the queue?', 'The file itself stays.', 'Drop')) {
        if (await act(b, 'DELETE', url)) { due.queue = 0; wake(); }
      }
    }));
    row.append(title, does);
    return row;
  }, (row, e) => {
    put(row.querySelector('.small'), e.left + ' of ' + e.copies + ' left \xc2\xb7 material ' + e.material + ' \xc2\xb7 priority ' + e.priority + ' \xc2\xb7 ' + e.name + (admin ? ' of ' + e.user : ''));
  });
}
// A name that no entry has yet.
function fresh(file) {
  const taken = new Set((entries || []).map((e) => e.name));
  const base = file.replace(/\\.[^.]*$/, '').slice(0, 80);
  for (let n = 1; ; n++) if (!taken.has(base + '-' + n)) return base + '-' + n;
}
on($('queue-add'), 'FILES_SELECT', null, async (b) => {
  const file = $('queue-file').value.trim();
  const reply = await act(b, 'POST', '/api/queue', {
    name: fresh(file), file, copies: Number($('queue-copies').value), priority: Number($('queue-priority').value), material: $('queue-material').value,
  }, file + ' is in the queue.');
  if (!reply) return;
  if (entries) entries.push(reply.data);
  $('queue-copies').value = 1;
  due.queue = 0;
  wake();
});
on($('next'), 'PRINT', ['Operational'], async (b) => {
  if (!await sure('Print the next entry?', 'Make sure that the bed is empty, and that the right material is in the printer.', 'Print')) return;
  const reply = await act(b, 'POST', '/api/queue-next');
  if (!reply) return;
  say(reply.data.file + ' of ' + reply.data.user + ' is being printed.');
  due.queue = 0;
  wake();
});

// ---- Prints.
function seePrints() {
  put($('prints-note'), prints.length ? '' : 'No prints yet.');
  show($('prints-box'), prints.length > 0);
  rows($('prints-list'), prints, (p) => String(p.number), (p) => {
    const row = make('tr');
    row.append(make('td', 'number', String(p.number)), make('td', 'name', p.file), make('td'), make('td', 'number', String(p.commands)), make('td', '', p.user));
    return row;
  }, (row, p) => {
    put(row.children[2], p.outcome);
    if (row.children[2].className !== p.outcome) row.children[2].className = p.outcome;
  });
}

// ---- Moving by hand, and single commands.
const PAD = [
  ['', '', ''], ['Y+', 'Y', 1], ['', '', ''], ['Z+', 'Z', 1],
  ['X\xe2\x88\x92', 'X', -1], ['Home', 'G28', 0], ['X+', 'X', 1], ['Home Z', 'G28 Z', 0],
  ['', '', ''], ['Y\xe2\x88\x92', 'Y', -1], ['', '', ''], ['Z\xe2\x88\x92', 'Z', -1],
];
for (const [text, axis, sign] of PAD) {
  if (!text) { $('pad').append(make('span')); continue; }
  const label = sign ? 'Move ' + axis + (sign > 0 ? ' up by the step' : ' down by the step') : text === 'Home' ? 'Home all axes' : 'Home Z';
  $('pad').append(button(text, label, 'CONTROL', ['Operational'], (b) => {
    const move = axis + (sign < 0 ? '-' : '') + $('step').value + (axis === 'Z' ? ' F600' : ' F3000');
    act(b, 'POST', '/api/printer/command', { commands: sign ? ['G91', 'G1 ' + move, 'G90'] : [axis] });
  }));
}
const lines = [];
let recall = 0;
on(submit('line-form'), 'CONTROL', LINKED, async (b) => {
  const line = $('line').value.trim();
  if (!line || !await act(b, 'POST', '/api/printer/command', { command: line }, line + ' is handed over.')) return;
  if (lines[lines.length - 1] !== line) lines.push(line);
  recall = lines.length;
  if ($('line').value.trim() === line) $('line').value = '';
});
$('line').onkeydown = (e) => {
  const to = e.key === 'ArrowUp' ? recall - 1 : e.key === 'ArrowDown' ? recall + 1 : -1;
  if (to < 0 || to > lines.length) return;
  e.preventDefault();
  recall = to;
  $('line').value = lines[to] || '';
};

// ---- Users.
function seeUsers(users) {
  rows($('users-list'), users, (u) => u.name, (u) => {
    const row = make('li');
    const title = make('p');
    title.append(make('span', 'name', u.name), ' ', make('span', 'dim small'));
    const url = '/api/access/users/' + part(u.name);
    const change = async (b, body, done) => {
      if (await act(b, 'PUT', url, body, done)) { due.users = 0; wake(); return true; }
      return false;
    };
    const groups = make('input', 'grow');
    groups.setAttribute('aria-label', 'Groups of ' + u.name);
    const does = make('div', 'row');
    does.append(
      groups,
      button('Save groups', 'Save the groups of ' + u.name, 'ADMIN', null, (b) => change(b, { groups: split(groups.value) }, u.name + '\\'s groups are saved.')),
      button('', '', 'ADMIN', null, (b) => change(b, { active: b.textContent === 'Activate' })),
      button('New key', 'Give ' + u.name + ' a new key', 'ADMIN', null, async (b) => {
        if (!await sure('A new key for ' + u.name + '?', 'The present key doesn\\'t work any more.', 'New key')) return;
        const value = newKey();
        if (await change(b, { key: value })) giveKey(u.name, value);
      }),
    );
    row.append(title, does);
    return row;
  }, (row, u) => {
    put(row.querySelector('.small'), u.active ? '' : 'not active');
    const groups = row.querySelector('input');
    const text = u.groups.join(', ');
    if (row.groups !== text) {
      if (row.groups === undefined || groups.value === row.groups) groups.value = text;
      row.groups = text;
    }
    const toggle = row.querySelectorAll('button')[1];
    put(toggle, u.active ? 'Deactivate' : 'Activate');
    toggle.setAttribute('aria-label', (u.active ? 'Deactivate ' : 'Activate ') + u.name);
  });
}
const split = (text) => text.split(/[\\s,]+/).filter((g) => g);
function newKey() {
  const letters = 'ABCDEFGHJKLMNPQRSTUVWXYZabcdefghijkmnopqrstuvwxyz23456789';
  let made = '';
  while (made.length < 24) {
    const byte = crypto.getRandomValues(new Uint8Array(1))[0];
    if (byte < letters.length * 4) made += letters[byte % letters.length];
  }
  return made;
}
function giveKey(name, value) {
  put($('new-key-text'), 'The key of ' + name + '. It is shown only now.');
  $('new-key-value').value = value;
  show($('new-key'), true);
  $('new-key-value').focus();
  $('new-key-value').select();
}
$('new-key-done').onclick = () => {
  $('new-key-value').value = '';
  show($('new-key'), false);
  $('user-name').focus();
};
on(submit('user-form'), 'ADMIN', null, async (b) => {
  const name = $('user-name').value.trim();
  const value = newKey();
  if (!await act(b, 'POST', '/api/access/users', { name, key: value, groups: split($('user-groups').value) }, name + ' is a user now.')) return;
  $('user-name').value = '';
  giveKey(name, value);
  due.users = 0;
  wake();
});

// ---- Asking again and again: once a second, only while the page is in sight.
// What changes rarely is asked for at its own times; `due` has when.
const EVERY = { connection: 15, files: 10, queue: 5, prints: 10, users: 20, version: 600 };
let due = {};
const seen = {};
const LISTS = {
  version: ['/api/version', (d) => put($('version'), location.host + ', ' + d.text)],
  connection: ['/api/connection', seePorts],
  files: ['/api/files', (d) => {
    files = d.files;
    seeFiles();
    $('file-names').replaceChildren(...files.map((f) => { const o = make('option'); o.value = f.name; return o; }));
  }],
  users: ['/api/access/users', (d) => { admin = true; show($('users-body'), true); put($('users-note'), ''); seeUsers(d.users); }],
  queue: ['/api/queue', (d) => { entries = d.entries; seeQueue(); }],
  prints: ['/api/prints', (d) => { prints = d.prints; seePrints(); if (job) seeJob(job); }],
};
async function list(name) {
  const [path, fill] = LISTS[name];
  const reply = await ask('GET', path, null, 4000);
  if (!key) return;
  learn('', reply);
  due[name] = Date.now() + EVERY[name] * 1000;
  if (reply.ok && reply.data) {
    const text = JSON.stringify(reply.data);
    if (seen[name] !== text) { seen[name] = text; fill(reply.data); }
    return;
  }
  // A list that isn't allowed is asked for again in a minute.
  due[name] = Date.now() + 60000;
  seen[name] = '';
  const note = $(name + '-note');
  if (note) put(note, sentence(reply.status, reply.data));
  if (name === 'users') { admin = false; show($('users-body'), false); }
  if (name === 'files') { files = null; show($('files-list'), false); show($('find-label'), false); }
  if (name === 'queue') { entries = null; show($('queue-list'), false); }
}

let timer = 0;
let running = false;
let again = false;
function wake() {
  if (running) { again = true; return; }
  clearTimeout(timer);
  if (key && !document.hidden) tick();
}
async function tick() {
  if (!key) return;
  running = true;
  again = false;
  const began = Date.now();
  try {
    const reply = await ask('GET', '/api/job', null, 1900);
    if (key) {
      learn('STATUS', reply);
      if (reply.ok && reply.data) seeJob(reply.data); else put($('hint'), sentence(reply.status, reply.data));
      found();
      if (LINKED.includes(state)) {
        const now = await ask('GET', '/api/printer', null, 1900);
        if (now.ok) seePrinter(now.data);
      } else seePrinter(null);
      for (const name of Object.keys(LISTS)) {
        if (key && Date.now() >= (due[name] || 0)) await list(name);
      }
    }
  } catch {
    lose();
  }
  running = false;
  clearTimeout(timer);
  if (key && !document.hidden) timer = setTimeout(tick, again ? 0 : Math.max(200, 1000 - (Date.now() - began)));
}
function lose() {
  if (lost || !key) return;
  lost = true;
  document.body.classList.add('stale');
  put($('lost'), 'No answer from the host since ' + clock() + '. What you see is old. Trying again \xe2\x80\xa6');
  show($('lost'), true);
}
function found() {
  if (!lost) return;
  lost = false;
  document.body.classList.remove('stale');
  show($('lost'), false);
  due = {};
  say('The host answers again.');
}
document.addEventListener('visibilitychange', wake);
addEventListener('online', wake);
addEventListener('pageshow', wake);

// ---- In and out.
function enter(value) {
  key = value;
  due = {};
  denied = {};
  for (const name of Object.keys(seen)) delete seen[name];
  show($('login'), false);
  for (const id of ['main', 'nav', 'state', 'stop']) show($(id), true);
  wake();
}
function out(why) {
  key = '';
  store(tab, '');
  store(device, '');
  if (sending) { sending.stopped = true; sending.abort(); }
  waiting.length = 0;
  if ($('sure').open) $('sure').close('no');
  for (const id of ['main', 'nav', 'state', 'stop', 'lost']) show($(id), false);
  // Nothing of the former user is left to see.
  files = entries = prints = job = selected = pace = null;
  samples = [];
  unprinted = {};
  state = stopped = '';
  lost = admin = false;
  document.body.classList.remove('stale');
  for (const id of ['files-list', 'queue-list', 'prints-list', 'users-list', 'file-names', 'messages', 'notices', 'port']) $(id).replaceChildren();
  for (const id of ['line', 'queue-file', 'new-key-value', 'upload-file', 'find']) $(id).value = '';
  lines.length = recall = 0;
  show($('new-key'), false);
  show($('users-body'), false);
  show($('stopped'), false);
  put($('brief-heat'), '');
  put($('brief-percent'), '');
  put($('login-note'), why || '');
  document.title = 'octo';
  show($('login'), true);
  $('key').focus();
}
$('login-form').onsubmit = async (e) => {
  e.preventDefault();
  const value = $('key').value.trim();
  const note = $('login-note');
  if (!/^[A-Za-z0-9]{16,64}$/.test(value)) { put(note, 'A key has 16 to 64 letters and digits.'); return; }
  put(note, 'Asking the host \xe2\x80\xa6');
  let reply;
  try {
    reply = await fetch('/api/version', { headers: { 'X-Api-Key': value }, cache: 'no-store' });
    const data = reply.status === 403 ? await reply.json() : null;
    // A key that lacks only a permission is a key.
    if (!reply.ok && !(data && data.error === 'Denied' && data.permission !== 'KEY')) { put(note, sentence(reply.status, data)); return; }
  } catch { put(note, 'The host doesn\\'t answer.'); return; }
  put(note, '');
  $('key').value = '';
  store(tab, value);
  store(device, $('keep').checked ? value : '');
  enter(value);
  $('job-title').focus();
};
$('forget').onclick = () => out('Your key is forgotten.');
document.addEventListener('keydown', (e) => {
  if (e.key === 'Escape' && !$('sure').open && $('notices').lastElementChild) $('notices').lastElementChild.remove();
});

const known = stored(tab) || stored(device);
if (known) enter(known); else show($('login'), true);
</script>
</body>
</html>
";
