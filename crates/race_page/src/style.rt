// How a page looks: by the colours that the reader's browser asks for, light or dark.

/// The head of a page.
pub(crate) const HEAD: &str = "<!DOCTYPE html>
<html lang=\"en\">
<head>
<meta charset=\"utf-8\">
<meta name=\"viewport\" content=\"width=device-width\">
<title>vrace: races</title>
<style>
:root { color-scheme: light dark; --back: #fff; --front: #1b1b1b; --weak: #5c5c5c; --rule: #d5d5d5; --wave: #14713c; --link: #0b57d0;
  --mark: #ffe3a8; --slot: #e9effc; --bad: #b3261e; }
@media (prefers-color-scheme: dark) { :root { --back: #16181a; --front: #e6e6e6; --weak: #a3a3a3; --rule: #3a3d40; --wave: #62d294;
  --link: #8ab4f8; --mark: #5a4410; --slot: #202c44; --bad: #ff8a80; } }
body { background: var(--back); color: var(--front); font: 15px/1.5 system-ui, sans-serif; margin: 0 auto; max-width: 84em;
  padding: 1em 1.5em 4em; }
h1, h2, h3 { line-height: 1.3; overflow-wrap: anywhere; }
h2 { font-size: 1.3em; }
h3 { font-size: 1em; margin: 1.5em 0 .5em; }
a { color: var(--link); }
nav ul { list-style: none; padding: 0; }
nav li { overflow-wrap: anywhere; }
section { border-top: 1px solid var(--rule); margin-top: 2.5em; }
pre, table, code, caption { font: 13px/1.5 ui-monospace, monospace; }
pre { margin: 0; overflow-x: auto; tab-size: 4; }
figure, .wide { margin: 0; overflow-x: auto; }
.file { color: var(--weak); margin: .5em 0 .2em; }
.line { color: var(--weak); display: inline-block; margin-right: 1.5em; min-width: 3em; text-align: right; }
mark, .differs, .races { background: var(--mark); color: inherit; }
table { border-collapse: collapse; margin: .5em 0; }
caption { color: var(--weak); padding: .2em 0; text-align: left; }
th, td { border: 1px solid var(--rule); padding: .15em .6em; text-align: left; vertical-align: top; white-space: pre; }
th[scope=col], .gap { color: var(--weak); font-weight: normal; }
.runs td { overflow-wrap: anywhere; white-space: pre-wrap; }
.runs .number, .runs .line-of { white-space: nowrap; }
.number { text-align: right; }
.runs { display: grid; gap: 1.5em; grid-template-columns: repeat(auto-fit, minmax(min(100%, 34em), 1fr)); }
svg { display: block; }
svg text { fill: var(--front); font: 12px ui-monospace, monospace; }
svg .run, svg .time, svg .axis { fill: var(--weak); }
svg .now { fill: var(--front); font-weight: bold; }
svg .odd { font-weight: bold; text-decoration: underline; }
svg .slot { fill: var(--slot); }
svg .differs { fill: var(--mark); }
svg .l { fill: var(--wave); }
svg .n, svg .x { fill: none; stroke: var(--wave); stroke-width: 1.5; }
svg .x { stroke: var(--bad); stroke-dasharray: 4 3; }
:focus-visible { outline: 2px solid var(--link); outline-offset: 2px; }
</style>
</head>
<body>
<main>
";

/// The end of a page.
pub(crate) const END: &str = "</main>\n</body>\n</html>\n";
